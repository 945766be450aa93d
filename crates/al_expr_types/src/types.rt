//! The table of a file's objects, and the types made from them.

ghost use Rattle.std.specs.Prelude.{◌≡◌, true};
ghost use Rattle.al_expr_types.specs.Kept.{AreCommons, AreCommons-prop, AreIndexes};
ghost use Rattle.al_expr_types.specs.Kept.{AreIndexes-prop};
ghost use Rattle.al_expr_types.specs.Types.{are_in_order};

use crate::fields::FieldMap;
use crate::joining::Join;
use crate::lists::Lists;
use crate::name_list::NameList;
use crate::objects::{Fields, Object};
use crate::ty::{Base, Ty};
use std::alloc::{AllocError, Global};
use std::collections::BTreeMap;

/// The objects of a file, each made once and identified by its number. Objects refer only to
/// earlier ones, so adding one changes no other.
#[derive(Drop)]
pub struct Types<'a> {
    pub(crate) alloc: Global,
    pub(crate) objects: Vec<Object<'a>>,
    /// The lists of the objects that are common to others.
    pub(crate) lists: Lists,
    /// What all fields of an object have in common, for objects where it was needed.
    commons: BTreeMap<u32, Option<Ty>>,
    /// How many objects were searched for the fields of an object.
    looks: BTreeMap<u32, usize>,
    /// The fields by name, for objects that were often searched.
    indexes: BTreeMap<u32, Fields<'a>>,
    ghost ordered: { are_in_order 0 objects.items ≡ true },
    ghost common: { AreCommons objects.items commons } by { AreCommons-prop objects.items commons },
    ghost indexed: { AreIndexes objects.items indexes } by { AreIndexes-prop objects.items indexes },
}

/// How often a field may be looked at before the index is made.
const OFTEN: usize = 2;

impl<'a> Types<'a> {
    ghost use Rattle.std.specs.Prelude.{◌∷◌, ◌++◌, ◌<◌, [], IfOk, IfSome, OnOk, length, option_map};
    ghost use Rattle.al_expr_types.specs.Kept.{IsCommon, IsFieldIndex};
    ghost use Rattle.al_base.specs.Growth.{BeginsWith};
    ghost use Rattle.al_types.specs.Strings.{named_strings};
    ghost use Rattle.al_types.specs.Types.{fuse_type, object_with, option_of, optional, or_any};
    ghost use Rattle.al_expr_types.specs.Joining.{is_join_below, join_in};
    ghost use Rattle.al_expr_types.specs.Tables.{is_known, objects_of, type_at};
    ghost use Rattle.al_expr_types.specs.FieldMaps.{fields_in, is_map_below};
    ghost use Rattle.al_expr_types.specs.Types.{is_object_below, is_rest_below, object_in};
    ghost use Rattle.al_expr_types.specs.Types.{object_parts, rest_in};

    /// No objects. Doesn't allocate.
    pub fn new(alloc: Global) -> Types<'a>
        ensures { objects_of result ≡ [] }
    {
        Types {
            alloc,
            objects: Vec::new(alloc),
            lists: Lists::new(alloc),
            commons: BTreeMap::new(alloc),
            looks: BTreeMap::new(alloc),
            indexes: BTreeMap::new(alloc),
        }
    }

    /// The allocator of its objects.
    pub fn alloc(&self) -> Global {
        self.alloc
    }

    /// Adds an object, and returns its number. Fails with `AllocError` when out of memory, as
    /// everything here does.
    pub(crate) fn push(&mut self, object: Object<'a>) -> Result<u32, AllocError>
        requires { is_object_below (length self.old.objects.items) object ≡ true }
        ensures objects { OnOk result
            (objects_of self.new
            ≡ objects_of self.old ++ object_parts (objects_of self.old) object.entry ∷ []) }
        ensures number { IfOk result
            (λ n. object_in (objects_of self.new) n
            ≡ object_parts (objects_of self.old) object.entry) }
        ensures there { IfOk result (λ n. n < length self.new.objects.items) }
        ensures kept { BeginsWith (objects_of self.new) (objects_of self.old) }
    {
        if self.objects.len() > u32::MAX as usize {
            return Err(AllocError);
        }
        let number = self.objects.len() as u32;
        self.objects.push(object)?;
        Ok(number)
    }

    /// How many objects there are.
    pub fn len(&self) -> usize
        ensures { result ≡ length self.now.objects.items }
    {
        self.objects.len()
    }

    /// An object, by its number from 0.
    ///
    /// # Requires
    ///
    /// `n` is the number of an object of this table.
    pub fn object(&self, n: u32) -> &Object<'a>
        requires { n < length self.now.objects.items }
        ensures object { object_in (objects_of self.now) n
            ≡ object_parts (objects_of self.now) result.now }
        ensures below { is_object_below n result.now ≡ true }
    {
        &self.objects[n as usize]
    }

    /// What all fields of an object have in common, if it is kept.
    pub(crate) fn kept_common(&self, n: u32) -> Option<Option<Ty>>
        ensures { IfSome result (λ t. IsCommon self.now.objects.items n t) }
    {
        self.commons.get(&n).copied()
    }

    /// Keeps what all fields of an object have in common.
    pub(crate) fn keep_common(&mut self, n: u32, common: Option<Ty>) -> Result<(), AllocError>
        requires { IsCommon self.old.objects.items n common }
        ensures { (self.new).objects ≡ (self.old).objects }
    {
        self.commons.insert(n, common)?;
        Ok(())
    }

    /// Whether an object was searched often enough for an index of all its fields to pay.
    pub(crate) fn is_due(&mut self, n: u32, looked: usize, all: usize) -> Result<bool, AllocError>
        ensures { (self.new).objects ≡ (self.old).objects }
    {
        let before = self.looks.get(&n).copied().unwrap_or(0);
        let more = before.saturating_add(looked);
        self.looks.insert(n, more)?;
        Ok(more / OFTEN >= all)
    }

    /// The index of an object, if it was made.
    pub(crate) fn index_of(&self, n: u32) -> Option<&Fields<'a>>
        ensures { IfSome result (λ f. IsFieldIndex self.now.objects.items n f.now) }
    {
        self.indexes.get(&n)
    }

    /// Keeps the index of an object.
    pub(crate) fn keep_index(&mut self, n: u32, index: Fields<'a>) -> Result<(), AllocError>
        requires { IsFieldIndex self.old.objects.items n index }
        ensures { (self.new).objects ≡ (self.old).objects }
    {
        self.indexes.insert(n, index)?;
        Ok(())
    }

    /// The type of an object with the fields of a map, and with others of the type `rest`, if
    /// given. Types made before stay valid.
    ///
    /// # Requires
    ///
    /// The types of the fields and `rest` are types of this table.
    ///
    /// # Errors
    ///
    /// `AllocError` if memory runs out.
    pub fn fields(&mut self, map: FieldMap<'a>, rest: Option<Ty>) -> Result<Ty, AllocError>
        requires fields { is_map_below (length self.old.objects.items) map ≡ true }
        requires rest { is_rest_below (length self.old.objects.items) rest ≡ true }
        ensures ty { IfOk result (λ t. type_at self.new t
            ≡ object_with (fields_in (objects_of self.old) map.entry)
            (rest_in (objects_of self.old) rest)) }
        ensures known { IfOk result (λ t. is_known self.new t ≡ true) }
        ensures kept { BeginsWith (objects_of self.new) (objects_of self.old) }
    {
        let fields = Fields::of(map, rest)?;
        let number = self.push(Object::Fields(fields))?;
        Ok(Ty::object(number))
    }

    /// The type of an object with string fields of these names, and no others. Types made before
    /// stay valid.
    ///
    /// # Errors
    ///
    /// `AllocError` if memory runs out.
    pub fn strings(&mut self, names: &'a NameList) -> Result<Ty, AllocError>
        ensures ty { IfOk result (λ t. type_at self.new t ≡ named_strings names.entry.now) }
        ensures known { IfOk result (λ t. is_known self.new t ≡ true) }
        ensures kept { BeginsWith (objects_of self.new) (objects_of self.old) }
    {
        let number = self.push(Object::Strings(names))?;
        Ok(Ty::object(number))
    }

    /// The type that types have in common; `None` if there are no types. Types made before stay
    /// valid.
    ///
    /// # Requires
    ///
    /// They are types of this table.
    ///
    /// # Errors
    ///
    /// `AllocError` if memory runs out.
    pub fn join_type(&mut self, join: Join) -> Result<Option<Ty>, AllocError>
        requires { is_join_below (length self.old.objects.items) join ≡ true }
        ensures ty { IfOk result
            (λ t. optional (option_map (type_at self.new) t) ≡ join_in (objects_of self.old) join) }
        ensures known { IfOk result (λ t. is_rest_below (length self.new.objects.items) t ≡ true) }
        ensures kept { BeginsWith (objects_of self.new) (objects_of self.old) }
    {
        match join {
            Join::Nothing => Ok(None),
            Join::One(ty) => Ok(Some(ty)),
            Join::Objects(join) => {
                let number = self.common_object(join.objects.as_slice())?;
                Ok(Some(Ty {
                    arrays: join.arrays,
                    of: Base::Object(number),
                }))
            }
        }
    }

    /// The type that types have in common; any if there are no types. Types made before stay valid.
    ///
    /// # Requires
    ///
    /// They are types of this table.
    ///
    /// # Errors
    ///
    /// `AllocError` if memory runs out.
    pub fn type_or_any(&mut self, join: Join) -> Result<Ty, AllocError>
        requires { is_join_below (length self.old.objects.items) join ≡ true }
        ensures ty { IfOk result
            (λ t. type_at self.new t ≡ or_any (option_of (join_in (objects_of self.old) join))) }
        ensures known { IfOk result (λ t. is_known self.new t ≡ true) }
        ensures kept { BeginsWith (objects_of self.new) (objects_of self.old) }
    {
        Ok(self.join_type(join)?.unwrap_or(Ty::ANY))
    }

    /// What two types have in common. Types made before stay valid.
    ///
    /// # Requires
    ///
    /// Both are types of this table.
    ///
    /// # Errors
    ///
    /// `AllocError` if memory runs out.
    pub fn join(&mut self, a: Ty, b: Ty) -> Result<Ty, AllocError>
        requires a { is_known self.old a ≡ true }
        requires b { is_known self.old b ≡ true }
        ensures ty { IfOk result
            (λ t. type_at self.new t ≡ fuse_type (type_at self.old a) (type_at self.old b)) }
        ensures known { IfOk result (λ t. is_known self.new t ≡ true) }
        ensures kept { BeginsWith (objects_of self.new) (objects_of self.old) }
    {
        let both = Join::One(a).and(self.alloc, b)?;
        self.type_or_any(both)
    }
}
