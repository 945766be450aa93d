//! Objects.

ghost use Rattle.std.specs.Prelude.{◌≤◌, length};

use crate::fields::FieldMap;
use crate::name_list::NameList;
use crate::ty::Ty;
use std::alloc::AllocError;
use std::rc::Rc;

/// The number of objects that are kept together: of the fields between two bases, and of a part of
/// a list.
pub(crate) const BLOCK: usize = 64;

/// A prefix of some fields, and the type of all other fields, if others are possible. Prefixes
/// share the fields.
#[derive(Drop)]
pub struct Fields<'a> {
    pub map: Rc<FieldMap<'a>>,
    pub count: usize,
    pub rest: Option<Ty>,
    ghost inside: { count ≤ length map.value.types.items },
}

impl<'a> Fields<'a> {
    ghost use Rattle.std.specs.Prelude.{◌≡◌, List, IfOk, true, ℕ};
    ghost use Rattle.al_types.specs.Types.{Parts, parts_with};
    ghost use Rattle.al_expr_types.specs.FieldMaps.{fields_in, is_map_below};
    ghost use Rattle.al_expr_types.specs.Types.{are_fields_below, fields_parts, is_rest_below};
    ghost use Rattle.al_expr_types.specs.Types.{rest_in};

    /// All fields of a map, and the type of other fields, if others are possible. Fails with
    /// `AllocError` when out of memory.
    pub(crate) fn of(map: FieldMap<'a>, rest: Option<Ty>) -> Result<Fields<'a>, AllocError>
        ensures parts { IfOk result (λ f. (ms : List Parts)
            → fields_parts ms f ≡ parts_with (fields_in ms map.entry) (rest_in ms rest)) }
        ensures below { IfOk result (λ f. (k : ℕ) → is_map_below k map.entry ≡ true
            → is_rest_below k rest ≡ true → are_fields_below k f ≡ true) }
    {
        let count = map.len();
        let map = Rc::new(map.alloc(), map)?;
        Ok(Fields { map, count, rest })
    }
}

/// An object with a prefix of a map's fields.
#[derive(Clone, Copy)]
pub struct Prefix {
    pub object: u32,
    pub count: usize,
}

/// Fields that extend those of an earlier object: what all of them have in common is what that
/// object's have, joined with the types after them.
#[derive(Drop)]
pub struct Extension<'a> {
    pub fields: Fields<'a>,
    pub base: Prefix,
    /// The types after those of the base, without objects that occur before.
    pub own: Vec<Ty>,
}

/// An object. It refers only to earlier objects.
#[derive(Drop)]
pub enum Object<'a> {
    Fields(Fields<'a>),
    Extension(Extension<'a>),
    /// String fields with these names: the outputs of a call, which aren't copied.
    Strings(&'a NameList),
    /// What these objects have in common.
    Common(Rc<Vec<u32>>),
}
