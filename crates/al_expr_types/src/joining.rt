//! What types have in common, one after another.

ghost use Rattle.std.specs.Prelude.{◌≡◌, ◌∷◌, ◌++◌, [], List, IfOk, map, nat_lt, not, true, ℕ};
ghost use Rattle.al_types.specs.Presence.{is_present};
ghost use Rattle.al_types.specs.Types.{Any, Parts, Present, fuse_optional, fuse_type};
ghost use Rattle.al_types.specs.Fused.{fuse_parts, fuse_all};
ghost use Rattle.al_expr_types.specs.Joining.{is_join_below, join_in, object_join_type};
ghost use Rattle.al_expr_types.specs.Types.{are_below, arrays_of, base_type, is_below, object_in};
ghost use Rattle.al_expr_types.specs.Types.{type_in};
ghost use Rattle.al_expr_types.specs.declared.ty.Base.TheVariants as base;

use crate::ty::{Base, Scalar, Ty};
use std::alloc::{AllocError, Global};

/// What some types have in common.
#[derive(Drop)]
pub enum Join {
    /// There are no types.
    Nothing,
    One(Ty),
    Objects(ObjectJoin),
}

/// What objects have in common, nested in this many arrays.
#[derive(Drop)]
pub struct ObjectJoin {
    pub(crate) arrays: u32,
    /// Their numbers, some perhaps more than once.
    pub(crate) objects: Vec<u32>,
}

/// The type any, nested in this many arrays.
fn any_in_arrays(arrays: u32) -> Ty
    ensures ty { (ms : List Parts) → type_in ms result ≡ arrays_of arrays Any }
    ensures below { (k : ℕ) → is_below k result ≡ true }
{
    Ty {
        arrays,
        of: Base::Scalar(Scalar::Any),
    }
}

/// What two types have in common. Fails with `AllocError` when out of memory, as everything here
/// does.
fn join_types(alloc: Global, a: Ty, b: Ty) -> Result<Join, AllocError>
    ensures ty { IfOk result
        (λ j. (ms : List Parts)
        → join_in ms j ≡ Present (fuse_type (type_in ms a) (type_in ms b))) }
    ensures below { IfOk result
        (λ j. (k : ℕ) → is_below k a ≡ true → is_below k b ≡ true → is_join_below k j ≡ true) }
{
    if a.arrays != b.arrays {
        return Ok(Join::One(any_in_arrays(a.arrays.min(b.arrays))));
    }
    match (a.of, b.of) {
        (Base::Scalar(x), Base::Scalar(y)) => Ok(Join::One(Ty {
            arrays: a.arrays,
            of: Base::Scalar(x.fuse(y)),
        })),
        (Base::Object(m), Base::Object(n)) => join_objects(alloc, a.arrays, m, n),
        (Base::Scalar(_), Base::Object(_)) => Ok(Join::One(any_in_arrays(a.arrays))),
        (Base::Object(_), Base::Scalar(_)) => Ok(Join::One(any_in_arrays(a.arrays))),
    }
}

/// What two objects have in common, nested in this many arrays.
fn join_objects(alloc: Global, arrays: u32, m: u32, n: u32) -> Result<Join, AllocError>
    ensures ty { IfOk result (λ j. (ms : List Parts) → join_in ms j
        ≡ Present
        (arrays_of arrays
        (fuse_type (base_type ms (base.Object m)) (base_type ms (base.Object n))))) }
    ensures below { IfOk result
        (λ j. (k : ℕ) → nat_lt m k ≡ true → nat_lt n k ≡ true → is_join_below k j ≡ true) }
{
    if m == n {
        return Ok(Join::One(Ty {
            arrays,
            of: Base::Object(m),
        }));
    }
    let objects = ObjectJoin::new(alloc, arrays).push(m)?.push(n)?;
    Ok(Join::Objects(objects))
}

impl ObjectJoin {
    fn new(alloc: Global, arrays: u32) -> ObjectJoin
        ensures arrays { result.arrays ≡ arrays }
        ensures objects { result.objects.items ≡ [] }
    {
        ObjectJoin {
            arrays,
            objects: Vec::new(alloc),
        }
    }

    fn push(self, n: u32) -> Result<ObjectJoin, AllocError>
        ensures arrays { IfOk result (λ s. s.arrays ≡ self.arrays) }
        ensures objects { IfOk result (λ s. s.objects.items ≡ self.objects.items ++ n ∷ []) }
    {
        let mut objects = self.objects;
        objects.push(n)?;
        Ok(ObjectJoin {
            arrays: self.arrays,
            objects,
        })
    }

    /// What they have in common with one more.
    fn and_object(self, n: u32) -> Result<ObjectJoin, AllocError>
        ensures arrays { IfOk result (λ s. s.arrays ≡ self.arrays) }
        ensures objects { IfOk result
            (λ s. (ms : List Parts) → fuse_all (map (object_in ms) s.objects.items)
            ≡ fuse_parts (fuse_all (map (object_in ms) self.objects.items)) (object_in ms n)) }
        ensures below { IfOk result
            (λ s. (k : ℕ) → are_below k self.objects.items ≡ true → nat_lt n k ≡ true
            → are_below k s.objects.items ≡ true) }
    {
        self.push(n)
    }

    fn and(self, t: Ty) -> Result<Join, AllocError>
        ensures ty { IfOk result
            (λ j. (ms : List Parts)
            → join_in ms j ≡ Present (fuse_type (object_join_type ms self) (type_in ms t))) }
        ensures below { IfOk result
            (λ j. (k : ℕ) → are_below k self.objects.items ≡ true → is_below k t ≡ true
            → is_join_below k j ≡ true) }
    {
        if self.arrays != t.arrays {
            return Ok(Join::One(any_in_arrays(self.arrays.min(t.arrays))));
        }
        match t.of {
            Base::Scalar(_) => Ok(Join::One(any_in_arrays(self.arrays))),
            Base::Object(n) => Ok(Join::Objects(self.and_object(n)?)),
        }
    }
}

impl Join {
    /// What they have in common with one more.
    pub fn and(self, alloc: Global, t: Ty) -> Result<Join, AllocError>
        ensures ty { IfOk result
            (λ j. (ms : List Parts)
            → join_in ms j ≡ fuse_optional (join_in ms self) (Present (type_in ms t))) }
        ensures below { IfOk result
            (λ j. (k : ℕ) → is_join_below k self ≡ true → is_below k t ≡ true
            → is_join_below k j ≡ true) }
    {
        match self {
            Join::Nothing => Ok(Join::One(t)),
            Join::One(u) => join_types(alloc, u, t),
            Join::Objects(join) => join.and(t),
        }
    }

    /// A copy.
    pub(crate) fn copy(&self, alloc: Global) -> Result<Join, AllocError>
        ensures ty { IfOk result (λ j. (ms : List Parts) → join_in ms j ≡ join_in ms self.now) }
        ensures below { IfOk result
            (λ j. (k : ℕ) → is_join_below k self.now ≡ true → is_join_below k j ≡ true) }
    {
        match self {
            Join::Nothing => Ok(Join::Nothing),
            Join::One(ty) => Ok(Join::One(*ty)),
            Join::Objects(join) => {
                let objects = Vec::from_slice(alloc, join.objects.as_slice())?;
                Ok(Join::Objects(ObjectJoin {
                    arrays: join.arrays,
                    objects,
                }))
            }
        }
    }

    /// Whether there are no types.
    pub fn is_nothing(&self) -> bool
        ensures { (ms : List Parts) → result ≡ not (is_present (join_in ms self.now)) }
    {
        matches!(self, Join::Nothing)
    }
}
