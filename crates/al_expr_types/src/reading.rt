//! Looking up the type of a property, and of `.*`.

ghost use Rattle.std.specs.Prelude.{◌≡◌, ◌<◌, List, IfOk, IfSome, length, map, option_map, true, ℕ};
ghost use Rattle.al_base.specs.Growth.{BeginsWith};
ghost use Rattle.al_types.specs.Types.{Parts, fuse_optional, object_type, option_of, property_in};
ghost use Rattle.al_types.specs.Fused.{fuse_all};
ghost use Rattle.al_expr_types.specs.Joining.{is_join_below, join_in};
ghost use Rattle.al_expr_types.specs.Parts.{part_in};
ghost use Rattle.al_expr_types.specs.Tables.{objects_of, type_at};
ghost use Rattle.al_expr_types.specs.Types.{common_of, are_below, are_fields_below};
ghost use Rattle.al_expr_types.specs.Types.{extension_parts, fields_parts};
ghost use Rattle.al_expr_types.specs.Types.{is_below, is_object_below, is_rest_below};
ghost use Rattle.al_expr_types.specs.Types.{object_in, rest_in, strings_parts, type_in};
ghost use Rattle.al_expr_types.specs.declared.objects.Object.TheVariants as object;
ghost use Rattle.std.specs.List.{list_all};

use crate::joining::Join;
use crate::name_list::NameList;
use crate::objects::{BLOCK, Extension, Fields, Object};
use crate::parts::Part;
use crate::ty::Ty;
use crate::types::Types;
use std::alloc::{AllocError, Global};
use std::rc::Rc;

/// Joins types with those so far. Fails with `AllocError` when out of memory, as everything here
/// does.
fn and_all(alloc: Global, types: &[Ty], so_far: Join) -> Result<Join, AllocError>
    ensures part { IfOk result (λ j. (ms : List Parts)
        → join_in ms j
        ≡ fuse_optional (join_in ms so_far) (common_of (map (type_in ms) types.now))) }
    ensures below { IfOk result
        (λ j. (n : ℕ) → list_all (is_below n) types.now ≡ true → is_join_below n so_far ≡ true
        → is_join_below n j ≡ true) }
{
    let mut all = so_far;
    for ty in types {
        all = all.and(alloc, *ty)?;
    }
    Ok(all)
}

/// Joins a type, if there is one, with those so far.
fn and_one(alloc: Global, ty: Option<Ty>, so_far: Join) -> Result<Join, AllocError>
    ensures part { IfOk result
        (λ j. (ms : List Parts) → join_in ms j
        ≡ fuse_optional (join_in ms so_far) (rest_in ms ty)) }
    ensures below { IfOk result
        (λ j. (n : ℕ) → is_rest_below n ty ≡ true → is_join_below n so_far ≡ true
        → is_join_below n j ≡ true) }
{
    match ty {
        Some(ty) => so_far.and(alloc, ty),
        None => Ok(so_far),
    }
}

impl Fields<'_> {
    /// Joins a part of them with the types so far.
    fn gather(&self, alloc: Global, part: Part<'_>, so_far: Join) -> Result<Join, AllocError>
        ensures part { IfOk result (λ j. (ms : List Parts)
            → join_in ms j
            ≡ fuse_optional (join_in ms so_far) (part_in part.entry (fields_parts ms self.now))) }
        ensures below { IfOk result
            (λ j. (n : ℕ) → are_fields_below n self.now ≡ true → is_join_below n so_far ≡ true
            → is_join_below n j ≡ true) }
    {
        match part {
            Part::Named(name) => and_one(alloc, self.map.get(name, self.count)?, so_far),
            Part::Rest => and_one(alloc, self.rest, so_far),
            Part::All => {
                let all = and_all(alloc, &self.map.types.as_slice()[..self.count], so_far)?;
                and_one(alloc, self.rest, all)
            }
        }
    }

    /// The type of the field with a name, otherwise that of other fields, if others are possible.
    fn property(&self, name: &[u8]) -> Result<Option<Ty>, AllocError>
        ensures ty { IfOk result (λ t. (ms : List Parts) → option_map (type_in ms) t
            ≡ property_in name.now (object_type (fields_parts ms self.now))) }
        ensures below { IfOk result
            (λ t. (n : ℕ) → are_fields_below n self.now ≡ true → is_rest_below n t ≡ true) }
    {
        match self.map.get(name, self.count)? {
            Some(ty) => Ok(Some(ty)),
            None => Ok(self.rest),
        }
    }
}

/// Joins a part of an object with string fields with the types so far.
fn gather_strings(
    alloc: Global,
    names: &NameList,
    part: Part<'_>,
    so_far: Join,
) -> Result<Join, AllocError>
    ensures part { IfOk result (λ j. (ms : List Parts)
        → join_in ms j
        ≡ fuse_optional (join_in ms so_far) (part_in part.entry (strings_parts names.now))) }
    ensures below { IfOk result
        (λ j. (n : ℕ) → is_join_below n so_far ≡ true → is_join_below n j ≡ true) }
{
    let has_string = match part {
        Part::Named(name) => names.position(name)?.is_some(),
        Part::Rest => false,
        Part::All => names.len() > 0,
    };
    and_one(alloc, has_string.then_some(Ty::STRING), so_far)
}

impl<'a> Types<'a> {
    /// Joins a part of fields that extend those of an object with the types so far.
    #[cycle(gathering)]
    fn gather_extension(
        &self,
        extension: &Extension<'a>,
        part: Part<'_>,
        so_far: Join,
    ) -> Result<Join, AllocError>
        requires { is_object_below (length self.now.objects.items) (object.Extension extension.now)
            ≡ true }
        ensures part { IfOk result (λ j. join_in (objects_of self.now) j
            ≡ fuse_optional (join_in (objects_of self.now) so_far)
            (part_in part.entry (extension_parts (objects_of self.now) extension.now))) }
        ensures below { IfOk result
            (λ j. is_join_below (length self.now.objects.items) so_far ≡ true
            → is_join_below (length self.now.objects.items) j ≡ true) }
    {
        match part {
            Part::All => {
                let of_base = self.gather(extension.base.object, part, so_far)?;
                and_all(self.alloc, extension.own.as_slice(), of_base)
            }
            Part::Named(_) | Part::Rest => extension.fields.gather(self.alloc, part, so_far),
        }
    }

    /// Joins a part of an object with the types so far.
    #[cycle(gathering)]
    pub(crate) fn gather(&self, n: u32, part: Part<'_>, so_far: Join) -> Result<Join, AllocError>
        requires { n < length self.now.objects.items }
        ensures part { IfOk result (λ j. join_in (objects_of self.now) j
            ≡ fuse_optional (join_in (objects_of self.now) so_far)
            (part_in part.entry (object_in (objects_of self.now) n))) }
        ensures below { IfOk result
            (λ j. is_join_below (length self.now.objects.items) so_far ≡ true
            → is_join_below (length self.now.objects.items) j ≡ true) }
    {
        match part {
            Part::All => {
                if let Some(common) = self.kept_common(n) {
                    return and_one(self.alloc, common, so_far);
                }
            }
            Part::Named(_) | Part::Rest => {
                if let Some(index) = self.index_of(n) {
                    return index.gather(self.alloc, part, so_far);
                }
            }
        }
        match self.object(n) {
            Object::Fields(fields) => fields.gather(self.alloc, part, so_far),
            Object::Extension(extension) => self.gather_extension(extension, part, so_far),
            Object::Strings(names) => gather_strings(self.alloc, names, part, so_far),
            Object::Common(of) => {
                let mut all = so_far;
                for m in of.as_slice() {
                    all = self.gather(*m, part, all)?;
                }
                Ok(all)
            }
        }
    }

    /// The type of a property of an object: that of the field with its name, otherwise that of
    /// other fields, if others are possible. Types made before stay valid.
    ///
    /// # Requires
    ///
    /// `n` is the number of an object of this table.
    ///
    /// # Errors
    ///
    /// `AllocError` if memory runs out.
    pub fn property(&mut self, n: u32, name: &[u8]) -> Result<Option<Ty>, AllocError>
        requires { n < length self.old.objects.items }
        ensures ty { IfOk result (λ t. option_map (type_at self.new) t
            ≡ property_in name.now (object_type (object_in (objects_of self.old) n))) }
        ensures known { IfOk result (λ t. is_rest_below (length self.new.objects.items) t ≡ true) }
        ensures kept { BeginsWith (objects_of self.new) (objects_of self.old) }
    {
        if let Object::Fields(fields) = self.object(n) {
            return fields.property(name);
        }
        self.prepare(n)?;
        self.find(n, name)
    }

    /// The type of a property of an object, found by what is kept of the object.
    fn find(&mut self, n: u32, name: &[u8]) -> Result<Option<Ty>, AllocError>
        requires { n < length self.old.objects.items }
        ensures ty { IfOk result (λ t. option_map (type_at self.new) t
            ≡ property_in name.now (object_type (object_in (objects_of self.old) n))) }
        ensures known { IfOk result (λ t. is_rest_below (length self.new.objects.items) t ≡ true) }
        ensures kept { BeginsWith (objects_of self.new) (objects_of self.old) }
    {
        let named = self.gather(n, Part::Named(name), Join::Nothing)?;
        if !named.is_nothing() {
            return self.join_type(named);
        }
        let rest = self.gather(n, Part::Rest, Join::Nothing)?;
        self.join_type(rest)
    }

    /// The numbers of the objects that an object is the common part of, if it is one.
    pub(crate) fn members(&self, n: u32) -> Result<Option<Rc<Vec<u32>>>, AllocError>
        requires { n < length self.now.objects.items }
        ensures common { IfOk result (λ of. IfSome of (λ list. object_in (objects_of self.now) n
            ≡ fuse_all (map (object_in (objects_of self.now)) list.value.items))) }
        ensures below { IfOk result
            (λ of. IfSome of (λ list. are_below n list.value.items ≡ true)) }
    {
        match self.object(n) {
            Object::Common(of) => Ok(Some(of.clone()?)),
            _ => Ok(None),
        }
    }

    /// The number of the object whose fields an object extends, if it does.
    fn base(&self, n: u32) -> Option<u32>
        requires { n < length self.now.objects.items }
        ensures { IfSome result (λ m. m < n) }
    {
        match self.object(n) {
            Object::Extension(extension) => Some(extension.base.object),
            _ => None,
        }
    }

    /// Whether an object has so few fields that what they have in common isn't worth keeping.
    fn is_small(&self, n: u32) -> bool {
        match self.objects.get(n as usize) {
            Some(Object::Fields(fields)) => fields.count < BLOCK,
            Some(Object::Strings(_)) => true,
            _ => false,
        }
    }

    /// Computes what all fields of an object have in common for each object that it is made from,
    /// but for small ones.
    #[cycle(commons)]
    fn make_commons(&mut self, n: u32) -> Result<(), AllocError>
        requires { n < length self.old.objects.items }
        ensures { BeginsWith (objects_of self.new) (objects_of self.old) }
    {
        if let Some(base) = self.base(n) {
            self.common(base)?;
            return Ok(());
        }
        let Some(of) = self.members(n)? else {
            return Ok(());
        };
        for m in of.as_slice() {
            if self.is_small(*m) {
                continue;
            }
            self.common(*m)?;
        }
        Ok(())
    }

    /// What all fields of an object, and the type of others, have in common, which is computed
    /// once. Types made before stay valid.
    ///
    /// # Requires
    ///
    /// `n` is the number of an object of this table.
    ///
    /// # Errors
    ///
    /// `AllocError` if memory runs out.
    #[cycle(commons)]
    pub fn common(&mut self, n: u32) -> Result<Option<Ty>, AllocError>
        requires { n < length self.old.objects.items }
        ensures ty { IfOk result
            (λ t. option_map (type_at self.new) t
            ≡ option_of (object_in (objects_of self.old) n).2) }
        ensures known { IfOk result (λ t. is_rest_below (length self.new.objects.items) t ≡ true) }
        ensures kept { BeginsWith (objects_of self.new) (objects_of self.old) }
    {
        if let Some(common) = self.kept_common(n) {
            return Ok(common);
        }
        self.make_commons(n)?;
        let all = self.gather(n, Part::All, Join::Nothing)?;
        let common = self.join_type(all)?;
        self.keep_common(n, common)?;
        Ok(common)
    }
}
