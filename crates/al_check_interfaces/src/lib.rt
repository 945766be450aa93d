//! What files in the folder see of one another: a file's interface, whose equality is exact, and
//! its calls: where each `uses` is, what its text names, and which of them name a file in the
//! folder.
#![tactic(auto)]

mod calls;
mod copies;
mod examples;
mod forms;
mod interfaces;
mod laws;
mod lists;
mod signatures;
mod sites;

pub use al_expr_types::{Name, NameList};
pub use calls::{FolderCall, folder_calls};
pub use examples::rows;
pub use interfaces::{Interface, Parameter, ParameterKind, Role, Signature};
pub use laws::{calls_of_trees, equal_interfaces, interfaces_of_trees};
pub use lists::Parameters;
pub use signatures::interface_of;
pub use sites::{Call, Site, caller_of, calls_in};
