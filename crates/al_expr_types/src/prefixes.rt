//! Prefixes of the fields of a map, such as the steps before each step of a job.

ghost use Rattle.std.specs.Prelude.{◌≡◌, ◌<◌, ◌≤◌, Contains, List, None, Some, IfOk, IsTrue, OnOk};
ghost use Rattle.std.specs.Prelude.{length, map, take, true, ℕ};
ghost use Rattle.std.specs.List.{list_all};
ghost use Rattle.al_base.specs.Growth.{BeginsWith};
ghost use Rattle.al_types.specs.Types.{Parts, fuse_optional, object_type};
ghost use Rattle.al_expr_types.specs.Types.{common_of, is_below, type_in};

use crate::fields::FieldMap;
use crate::objects::{BLOCK, Extension, Fields, Object, Prefix};
use crate::ty::{Base, Ty};
use crate::types::Types;
use std::alloc::{AllocError, Global};
use std::collections::BTreeMap;
use std::rc::Rc;

/// The fields of a map whose prefixes are needed, usually the shorter ones first. What all fields
/// of a prefix have in common is computed from that of a base, a prefix with fewer than `BLOCK`
/// fields less, and the types after it, so the time doesn't grow with the prefix.
#[derive(Drop)]
pub struct Prefixes<'a> {
    map: Rc<FieldMap<'a>>,
    /// For each type of the map, the position at which its object first occurs. Affects only time
    /// and memory.
    firsts: Vec<usize>,
    base: Option<Prefix>,
}

/// For each type, the position at which its object first occurs, or its own position if it isn't an
/// object. Fails with `AllocError` when out of memory, as everything here does.
fn first_positions(alloc: Global, types: &[Ty]) -> Result<Vec<usize>, AllocError> {
    let mut firsts = Vec::new(alloc);
    let mut places: BTreeMap<u32, usize> = BTreeMap::new(alloc);
    for (i, ty) in types.iter().enumerate() {
        let first = match ty.of {
            Base::Object(n) => *places.entry(n)?.or_insert(i),
            Base::Scalar(_) => i,
        };
        firsts.push(first)?;
    }
    Ok(firsts)
}

/// Whether an object occurs before a position. If it is missed, it is only taken twice.
fn is_object_before(types: &[Ty], firsts: &[usize], i: usize, ty: Ty) -> bool
    requires { i ≤ length types.now }
    ensures { IsTrue result → Contains (take i types.now) ty }
{
    let first = firsts.get(i).copied().unwrap_or(i);
    if first >= i {
        return false;
    }
    types[first] == ty
}

/// The types from one position to another, without objects that occur before.
fn new_types(
    alloc: Global,
    types: &[Ty],
    firsts: &[usize],
    from: usize,
    to: usize,
) -> Result<Vec<Ty>, AllocError>
    requires from { from ≤ to }
    requires to { to ≤ length types.now }
    ensures part { IfOk result (λ own. (ms : List Parts)
        → fuse_optional (common_of (map (type_in ms) (take from types.now)))
        (common_of (map (type_in ms) own.items))
        ≡ common_of (map (type_in ms) (take to types.now))) }
    ensures below { IfOk result
        (λ own. (k : ℕ) → list_all (is_below k) types.now ≡ true
        → list_all (is_below k) own.items ≡ true) }
{
    let mut own = Vec::new(alloc);
    for i in from..to {
        let ty = types[i];
        if !is_object_before(types, firsts, i, ty) {
            own.push(ty)?;
        }
    }
    Ok(own)
}

impl<'a> Prefixes<'a> {
    ghost use Rattle.al_expr_types.specs.FieldMaps.{is_map_below};
    ghost use Rattle.al_expr_types.specs.Prefixes.{HasPrefix, IsShorter, map_in, prefix_parts};
    ghost use Rattle.al_expr_types.specs.Tables.{is_known, objects_of, type_at};
    ghost use Rattle.al_expr_types.specs.Types.{object_in};

    /// The fields of a map.
    pub fn new(map: FieldMap<'a>) -> Result<Prefixes<'a>, AllocError>
        ensures map { IfOk result (λ p. map_in p ≡ map.entry) }
        ensures base { IfOk result (λ p. p.base ≡ None) }
    {
        let alloc = map.alloc();
        let firsts = first_positions(alloc, map.types.as_slice())?;
        let map = Rc::new(alloc, map)?;
        Ok(Prefixes {
            map,
            firsts,
            base: None,
        })
    }

    /// The number of a new object with the first `count` fields, based on one with fewer of them if
    /// there is one.
    fn object(
        &self,
        types: &mut Types<'a>,
        count: usize,
        base: Option<Prefix>,
    ) -> Result<u32, AllocError>
        requires inside { count ≤ length (map_in self.now).types.items }
        requires below { is_map_below (length types.old.objects.items) (map_in self.now) ≡ true }
        requires base { HasPrefix types.old (map_in self.now) base }
        requires shorter { IsShorter base count }
        ensures object { IfOk result (λ n. object_in (objects_of types.new) n
            ≡ prefix_parts (objects_of types.old) (map_in self.now) count) }
        ensures there { IfOk result (λ n. n < length types.new.objects.items) }
        ensures kept { BeginsWith (objects_of types.new) (objects_of types.old) }
    {
        let map = self.map.clone()?;
        let fields = Fields {
            map,
            count,
            rest: None,
        };
        match base {
            Some(base) => {
                let all = self.map.types.as_slice();
                let own = new_types(types.alloc, all, self.firsts.as_slice(), base.count, count)?;
                types.push(Object::Extension(Extension { fields, base, own }))
            }
            None => types.push(Object::Fields(fields)),
        }
    }

    /// The base of the first `count` fields: a new one if they are a block or more beyond the last.
    fn base_of(&mut self, types: &mut Types<'a>, count: usize) -> Result<Option<Prefix>, AllocError>
        requires inside { count ≤ length (map_in self.old).types.items }
        requires below { is_map_below (length types.old.objects.items) (map_in self.old) ≡ true }
        requires base { HasPrefix types.old (map_in self.old) self.old.base }
        ensures result { IfOk result (λ b. HasPrefix types.new (map_in self.old) b) }
        ensures shorter { IfOk result (λ b. IsShorter b count) }
        ensures map { map_in self.new ≡ map_in self.old }
        ensures base { OnOk result (HasPrefix types.new (map_in self.old) self.new.base) }
        ensures kept { BeginsWith (objects_of types.new) (objects_of types.old) }
    {
        let base = self.base.filter(|base| base.count <= count);
        let from = base.map_or(0, |base| base.count);
        if count.saturating_sub(from) < BLOCK {
            return Ok(base);
        }
        let whole = count - count % BLOCK;
        let object = self.object(types, whole, base)?;
        self.base = Some(Prefix {
            object,
            count: whole,
        });
        Ok(self.base)
    }

    /// The type of an object with the first `count` fields, and no others.
    pub fn first(&mut self, types: &mut Types<'a>, count: usize) -> Result<Ty, AllocError>
        requires inside { count ≤ length (map_in self.old).types.items }
        requires below { is_map_below (length types.old.objects.items) (map_in self.old) ≡ true }
        requires base { HasPrefix types.old (map_in self.old) self.old.base }
        ensures ty { IfOk result
            (λ t. type_at types.new t
            ≡ object_type (prefix_parts (objects_of types.old) (map_in self.old) count)) }
        ensures known { IfOk result (λ t. is_known types.new t ≡ true) }
        ensures map { map_in self.new ≡ map_in self.old }
        ensures base { OnOk result (HasPrefix types.new (map_in self.old) self.new.base) }
        ensures kept { BeginsWith (objects_of types.new) (objects_of types.old) }
    {
        let base = self.base_of(types, count)?;
        let n = self.object(types, count, base)?;
        Ok(Ty::object(n))
    }
}
