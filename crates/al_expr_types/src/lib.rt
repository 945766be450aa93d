//! The types of expressions. A type is a scalar or an object, nested in some arrays. The objects of
//! a file are in one table, each made once, and types refer to them by number. What several objects
//! have in common is an object too, given by their numbers, and so is a prefix of an object's
//! fields.
#![tactic(auto)]

mod common;
mod fields;
mod indexing;
mod joining;
mod lists;
mod merging;
mod name_index;
mod name_list;
mod names;
mod objects;
mod parts;
mod prefixes;
mod reading;
mod ty;
mod types;

pub use fields::FieldMap;
pub use joining::{Join, ObjectJoin};
pub use merging::FieldJoins;
pub use name_list::{Name, NameList};
pub use names::Names;
pub use objects::{Extension, Fields, Object, Prefix};
pub use parts::Part;
pub use prefixes::Prefixes;
pub use ty::{Base, Scalar, Ty};
pub use types::Types;
