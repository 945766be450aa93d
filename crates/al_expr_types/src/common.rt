//! What several objects have in common, as an object: one object for each list, however it came
//! about.

ghost use Rattle.std.specs.Prelude.{◌≡◌, ◌<◌, ◌≤◌, IfOk, IfSome, IsTrue, length, map, true};
ghost use Rattle.al_base.specs.Growth.{BeginsWith};
ghost use Rattle.al_types.specs.Fused.{fuse_all, fuse_parts};
ghost use Rattle.al_expr_types.specs.Tables.{objects_of};
ghost use Rattle.al_expr_types.specs.Types.{are_below, object_in};

use crate::objects::{BLOCK, Object};
use crate::types::Types;
use std::alloc::AllocError;
use std::rc::Rc;

impl<'a> Types<'a> {
    /// Whether an object is what the objects of a list have in common, given by this list.
    fn is_of(&self, n: u32, list: &[u32]) -> bool
        ensures there { IsTrue result → n < length self.now.objects.items }
        ensures common { IsTrue result → object_in (objects_of self.now) n
            ≡ fuse_all (map (object_in (objects_of self.now)) list.now) }
    {
        if n as usize >= self.objects.len() {
            return false;
        }
        match self.object(n) {
            Object::Common(of) => of.as_slice() == list,
            _ => false,
        }
    }

    /// The object that is common to those of a list, found or made. Fails with `AllocError` when
    /// out of memory, as everything here does.
    fn object_of(&mut self, list: Vec<u32>) -> Result<u32, AllocError>
        requires { are_below (length self.old.objects.items) list.items ≡ true }
        ensures object { IfOk result (λ n. object_in (objects_of self.new) n
            ≡ fuse_all (map (object_in (objects_of self.old)) list.items)) }
        ensures there { IfOk result (λ n. n < length self.new.objects.items) }
        ensures kept { BeginsWith (objects_of self.new) (objects_of self.old) }
    {
        let list = Rc::new(self.alloc, list)?;
        if let Some(n) = self.lists.number(&list)? {
            if self.is_of(n, list.as_slice()) {
                return Ok(n);
            }
        }
        let number = self.push(Object::Common(list.clone()?))?;
        self.lists.keep(list, number)?;
        Ok(number)
    }

    /// Whether an object is common to others.
    fn is_common(&self, n: u32) -> bool {
        matches!(self.objects.get(n as usize), Some(Object::Common(_)))
    }

    /// The objects that take the place of an object in a list: those that it is common to, unless
    /// they are a block or more and the first of them is common to no others. Such a list is a part
    /// of others.
    fn in_its_place(&self, n: u32) -> Result<Option<Rc<Vec<u32>>>, AllocError>
        requires { n < length self.now.objects.items }
        ensures common { IfOk result (λ of. IfSome of (λ list. object_in (objects_of self.now) n
            ≡ fuse_all (map (object_in (objects_of self.now)) list.value.items))) }
        ensures below { IfOk result
            (λ of. IfSome of (λ list. are_below n list.value.items ≡ true)) }
    {
        let Some(list) = self.members(n)? else {
            return Ok(None);
        };
        let is_part = match list.first() {
            Some(first) => list.len() >= BLOCK && !self.is_common(*first),
            None => false,
        };
        if is_part {
            return Ok(None);
        }
        Ok(Some(list))
    }

    /// A list with one more object, or with those that take its place.
    fn and_flat(&mut self, flat: Vec<u32>, n: u32) -> Result<Vec<u32>, AllocError>
        requires { n < length self.old.objects.items }
        ensures common { IfOk result
            (λ more. fuse_all (map (object_in (objects_of self.old)) more.items)
            ≡ fuse_parts (fuse_all (map (object_in (objects_of self.old)) flat.items))
            (object_in (objects_of self.old) n)) }
        ensures below { IfOk result
            (λ more. are_below (length self.old.objects.items) flat.items ≡ true
            → are_below (length self.old.objects.items) more.items ≡ true) }
        ensures objects { self.new.objects ≡ self.old.objects }
    {
        match self.in_its_place(n)? {
            Some(list) => self.lists.and_all(flat, list.as_slice()),
            None => self.lists.and(flat, n),
        }
    }

    /// A list of objects, each once, with other objects in place of those that are common to them.
    fn flat(&mut self, objects: &[u32]) -> Result<Vec<u32>, AllocError>
        requires { are_below (length self.old.objects.items) objects.now ≡ true }
        ensures common { IfOk result
            (λ flat. fuse_all (map (object_in (objects_of self.old)) flat.items)
            ≡ fuse_all (map (object_in (objects_of self.old)) objects.now)) }
        ensures below { IfOk result
            (λ flat. are_below (length self.old.objects.items) flat.items ≡ true) }
        ensures objects { self.new.objects ≡ self.old.objects }
    {
        let mut flat = Vec::new(self.alloc);
        for n in objects {
            flat = self.and_flat(flat, *n)?;
        }
        Ok(flat)
    }

    /// How many objects at the beginning of a list are common to others.
    fn leading_commons(&self, list: &[u32]) -> usize
        ensures { result ≤ length list.now }
    {
        for (i, n) in list.iter().enumerate() {
            if !self.is_common(*n) {
                return i;
            }
        }
        list.len()
    }

    /// A list of objects, with blocks of those after the leading common ones as one object: lists
    /// that grow share their blocks.
    fn grouped(&mut self, flat: Vec<u32>) -> Result<Vec<u32>, AllocError>
        requires { are_below (length self.old.objects.items) flat.items ≡ true }
        ensures common { IfOk result
            (λ list. fuse_all (map (object_in (objects_of self.new)) list.items)
            ≡ fuse_all (map (object_in (objects_of self.old)) flat.items)) }
        ensures below { IfOk result
            (λ list. are_below (length self.new.objects.items) list.items ≡ true) }
        ensures kept { BeginsWith (objects_of self.new) (objects_of self.old) }
    {
        let commons = self.leading_commons(flat.as_slice());
        let (commons, others) = flat.as_slice().split_at(commons);
        if commons.len() == 0 || others.len() < BLOCK {
            return Ok(flat);
        }
        let (whole, last) = others.split_at(others.len() - others.len() % BLOCK);
        let block = self.object_of(Vec::from_slice(self.alloc, whole)?)?;
        let mut list = Vec::from_slice(self.alloc, commons)?;
        list.push(block)?;
        list.extend_from_slice(last)?;
        Ok(list)
    }

    /// The object that is common to these. It is found again by each list that has the same objects
    /// in the same order, each once, with others in place of those that are common to them.
    pub(crate) fn common_object(&mut self, objects: &[u32]) -> Result<u32, AllocError>
        requires { are_below (length self.old.objects.items) objects.now ≡ true }
        ensures object { IfOk result (λ n. object_in (objects_of self.new) n
            ≡ fuse_all (map (object_in (objects_of self.old)) objects.now)) }
        ensures there { IfOk result (λ n. n < length self.new.objects.items) }
        ensures kept { BeginsWith (objects_of self.new) (objects_of self.old) }
    {
        let flat = self.flat(objects)?;
        let list = self.grouped(flat)?;
        self.object_of(list)
    }
}
