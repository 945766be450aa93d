//! Lists of fields, from which objects are made.

use al_expr_types::{FieldMap, Ty, Types};
use std::alloc::{AllocError, Global};

/// Fields in order, only the first of those with equal names.
#[derive(Drop)]
pub struct FieldList<'a> {
    pub(crate) map: FieldMap<'a>,
}

impl<'a> FieldList<'a> {
    ghost use Rattle.std.specs.Prelude.{◌≡◌, [], List, IfOk, OnOk, length, map, true};
    ghost use Rattle.al_base.specs.Growth.{BeginsWith};
    ghost use Rattle.al_types.specs.Puts.{TypedName, put_new};
    ghost use Rattle.al_types.specs.Types.{Type', object_with};
    ghost use Rattle.al_check_objects.specs.Numbers.{Lists, Means};
    ghost use Rattle.al_expr_types.specs.FieldMaps.{is_map_below};
    ghost use Rattle.al_expr_types.specs.Tables.{objects_of};
    ghost use Rattle.al_expr_types.specs.Types.{is_rest_below, rest_in};
    ghost use Rattle.al_expr_types.specs.declared.types.Types as declared;

    /// No fields. Doesn't allocate.
    pub fn new(alloc: Global) -> FieldList<'a>
        ensures { (types : declared.Types) → Lists types result [] }
    {
        let map = FieldMap::new(alloc);
        FieldList { map }
    }

    /// Appends a field, unless there is one with its name.
    pub fn and(self, name: &'a [u8], ty: Ty) -> Result<FieldList<'a>, AllocError>
        ensures { IfOk result
            (λ l. (types : declared.Types) (ts : List TypedName) (m : Type')
            → Lists types self.entry ts
            → Means types ty m
            → Lists types l (put_new ts (name.now, m))) }
    {
        let map = self.map.and(name, ty)?;
        Ok(FieldList { map })
    }

    /// How many fields there are.
    pub fn len(&self) -> usize
        ensures { result ≡ length (self.now).map.types.items }
    {
        self.map.len()
    }

    /// The fields, as a map by name.
    pub fn into_map(self) -> FieldMap<'a>
        ensures { result ≡ (self.entry).map }
    {
        self.map
    }

    /// The type of an object with these fields, and with others of the type `rest`, if given.
    pub fn into_type(self, types: &mut Types<'a>, rest: Option<Ty>) -> Result<Ty, AllocError>
        requires fields { is_map_below (length types.old.objects.items) self.map ≡ true }
        requires rest { is_rest_below (length types.old.objects.items) rest ≡ true }
        ensures ty { IfOk result (λ t. (ts : List TypedName) → Lists types.old self.entry ts
            → Means types.new t (object_with ts
            (rest_in (objects_of types.old) rest))) }
        ensures kept { OnOk result (BeginsWith (objects_of types.new) (objects_of types.old)) }
    {
        types.fields(self.map, rest)
    }
}
