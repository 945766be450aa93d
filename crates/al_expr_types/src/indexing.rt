//! Indexes by name of objects that are often searched.

ghost use Rattle.std.specs.Prelude.{◌≡◌, ◌<◌, IfOk, length, map, true};
ghost use Rattle.std.specs.List.{list_all};
ghost use Rattle.al_base.specs.Growth.{BeginsWith};
ghost use Rattle.al_types.specs.Types.{Present, fuse_optional};
ghost use Rattle.al_expr_types.specs.Joining.{join_in};
ghost use Rattle.al_expr_types.specs.Kept.{IsFieldIndex};
ghost use Rattle.al_expr_types.specs.Merging.{are_joins_below, found_in};
ghost use Rattle.al_expr_types.specs.Tables.{objects_of, type_at};
ghost use Rattle.al_expr_types.specs.Types.{is_below, object_in};

use crate::fields::FieldMap;
use crate::joining::Join;
use crate::merging::FieldJoins;
use crate::objects::{Fields, Object};
use crate::parts::Part;
use crate::ty::Ty;
use crate::types::Types;
use std::alloc::AllocError;

impl<'a> Types<'a> {
    /// Adds the fields of an object to those merged so far.
    #[cycle(merging)]
    fn merge(&self, n: u32, so_far: FieldJoins<'a>) -> Result<FieldJoins<'a>, AllocError>
        requires { n < length self.now.objects.items }
        ensures found { IfOk result (λ m. found_in (objects_of self.now) m
            ≡ λ name. fuse_optional (found_in (objects_of self.now) so_far.entry name)
            ((object_in (objects_of self.now) n).0 name)) }
        ensures below { IfOk result
            (λ m. are_joins_below (length self.now.objects.items) so_far.entry ≡ true
            → are_joins_below (length self.now.objects.items) m ≡ true) }
    {
        if let Some(index) = self.index_of(n) {
            return so_far.and_object(index);
        }
        match self.object(n) {
            Object::Fields(fields) => so_far.and_object(fields),
            Object::Extension(extension) => so_far.and_object(&extension.fields),
            Object::Strings(names) => so_far.and_strings(names),
            Object::Common(of) => {
                let mut all = so_far;
                for m in of.as_slice() {
                    all = self.merge(*m, all)?;
                }
                Ok(all)
            }
        }
    }

    /// The types of merged fields.
    fn types_of(&mut self, merging: &FieldJoins<'a>) -> Result<Vec<Ty>, AllocError>
        requires { are_joins_below (length self.old.objects.items) merging.now ≡ true }
        ensures types { IfOk result (λ v. map (λ t. Present (type_at self.new t)) v.items
            ≡ map (join_in (objects_of self.old)) merging.now.joins.items) }
        ensures known { IfOk result
            (λ v. list_all (is_below (length self.new.objects.items)) v.items ≡ true) }
        ensures kept { BeginsWith (objects_of self.new) (objects_of self.old) }
    {
        let mut types = Vec::new(self.alloc);
        for join in merging.as_slice() {
            let copy = join.copy(self.alloc)?;
            match self.join_type(copy)? {
                Some(ty) => types.push(ty)?,
                // Each name has a type.
                None => return Err(AllocError),
            }
        }
        Ok(types)
    }

    /// The fields of an object by name, and the type of others, as one list.
    ///
    /// # Requires
    ///
    /// `n` is the number of an object of this table.
    ///
    /// # Errors
    ///
    /// `AllocError` if memory runs out.
    pub fn index(&mut self, n: u32) -> Result<Fields<'a>, AllocError>
        requires { n < length self.old.objects.items }
        ensures index { IfOk result (λ f. IsFieldIndex self.new.objects.items n f) }
        ensures kept { BeginsWith (objects_of self.new) (objects_of self.old) }
    {
        let merging = self.merge(n, FieldJoins::new(self.alloc))?;
        let others = self.gather(n, Part::Rest, Join::Nothing)?;
        let types = self.types_of(&merging)?;
        let rest = self.join_type(others)?;
        let names = merging.into_names();
        Fields::of(FieldMap { names, types }, rest)
    }

    /// The number of fields of an object, by its index or by itself.
    fn field_count(&self, n: u32) -> usize
        requires { n < length self.now.objects.items }
    {
        if let Some(index) = self.index_of(n) {
            return index.count;
        }
        match self.object(n) {
            Object::Fields(fields) => fields.count,
            Object::Extension(extension) => extension.fields.count,
            Object::Strings(names) => names.len(),
            Object::Common(_) => 0,
        }
    }

    /// How many objects a search for a field of an object goes through, and how many fields these
    /// have. Makes the index of each object that was searched often enough to pay for it.
    pub(crate) fn prepare(&mut self, n: u32) -> Result<(usize, usize), AllocError>
        requires { n < length self.old.objects.items }
        ensures kept { BeginsWith (objects_of self.new) (objects_of self.old) }
    {
        let size = self.field_count(n);
        if self.index_of(n).is_some() {
            return Ok((1, size));
        }
        let Some(of) = self.members(n)? else {
            return Ok((1, size));
        };
        let mut looked = 1_usize;
        let mut fields = 0_usize;
        for m in of.as_slice() {
            let (objects, more) = self.prepare(*m)?;
            looked = looked.saturating_add(objects);
            fields = fields.saturating_add(more);
        }
        if self.is_due(n, looked, fields)? {
            let index = self.index(n)?;
            self.keep_index(n, index)?;
            return Ok((1, fields));
        }
        Ok((looked, fields))
    }
}
