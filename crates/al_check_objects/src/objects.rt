//! Objects with given fields.

ghost use Rattle.std.specs.List.{list_all};
ghost use Rattle.std.specs.Prelude.{◌≡◌, length, map, true};
ghost use Rattle.al_check_objects.specs.Numbers.{Makes};
ghost use Rattle.al_expr_types.specs.Once.{are_once};
ghost use Rattle.al_expr_types.specs.Tables.{objects_of, type_at};
ghost use Rattle.al_expr_types.specs.Types.{is_below, is_rest_below, rest_in};
ghost use Rattle.al_tree.specs.Keys.{keys_in};
ghost use Rattle.al_tree.specs.Values.{member_of};
ghost use Rattle.al_types.specs.Strings.{named_strings};
ghost use Rattle.al_types.specs.Types.{object_with};

use crate::field_lists::FieldList;
use al_expr_types::{FieldMap, Ty, Types};
use al_tree::Member;
use std::alloc::AllocError;

/// The object with these fields, which must have different names, and with others of the type
/// `rest`, if given. Fails with `AllocError` when out of memory, as everything here does.
pub fn object_of<'a>(
    types: &mut Types<'a>,
    fields: &[(&'a [u8], Ty)],
    rest: Option<Ty>,
) -> Result<Ty, AllocError>
    requires once { are_once (map (λ f. f.0.now) fields.now) ≡ true }
    requires known { list_all (is_below (length types.old.objects.items))
        (map (λ f. f.1) fields.now) ≡ true }
    requires rest { is_rest_below (length types.old.objects.items) rest ≡ true }
    ensures { Makes types.old types.new result
        (object_with (map (λ f. (f.0.now, type_at types.old f.1)) fields.now)
        (rest_in (objects_of types.old) rest)) }
{
    let map = FieldMap::of(types.alloc(), fields)?;
    types.fields(map, rest)
}

/// The object with a string field for the key of each entry, and no other fields.
pub fn declared_strings<'a>(types: &mut Types<'a>, entries: &[Member<'a>]) -> Result<Ty, AllocError>
    ensures { Makes types.old types.new result
        (named_strings (keys_in (map member_of entries.now))) }
{
    let mut fields = FieldList::new(types.alloc());
    for entry in entries {
        fields = fields.and(entry.key.text(), Ty::STRING)?;
    }
    fields.into_type(types, None)
}
