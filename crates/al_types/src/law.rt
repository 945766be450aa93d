//! Laws of the definitions of types.

ghost use Rattle.std.specs.Prelude.{◌≡◌, ℕ, List, Some};
ghost use Rattle.al_types.specs.FusedFields.{ObjectsFuse};
ghost use Rattle.al_types.specs.Types.{Fields, Optional, Present, Type', fuse_optional, fuse_type};
ghost use Rattle.al_types.specs.Types.{object_with, parts_with, property_in};

/// How two objects are fused. The definitions see an object as a map from names to types, with what
/// all its fields have in common, and fuse two objects name by name. The law says that this gives
/// the object with the fields of both, provided that the second has no name twice. Does nothing at
/// run time.
pub fn objects_fuse()
    ensures { ObjectsFuse }
{}

/// What types have in common doesn't depend on their order or on repetitions. Does nothing at run
/// time.
pub fn types_fuse()
    ensures order { (a b : Type') → fuse_type a b ≡ fuse_type b a }
    ensures grouping { (a b c : Type') → fuse_type (fuse_type a b) c ≡ fuse_type a (fuse_type b c) }
    ensures repeats { (a : Type') → fuse_type a a ≡ a }
{}

/// The type of any property of an object is covered by that of its `.*`: fusing the two changes
/// nothing. Does nothing at run time.
pub fn all_fields_cover_each()
    ensures { (fs : Fields) (rest : Optional) (n : List ℕ) (t : Type')
        → property_in n (object_with fs rest) ≡ Some t
        → fuse_optional (Present t) (parts_with fs rest).2 ≡ (parts_with fs rest).2 }
{}
