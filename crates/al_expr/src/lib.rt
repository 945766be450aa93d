//! Expressions of workflows and actions, `${{ .. }}`: their tokens and chunks, their trees, their
//! types, and their faults (GitHub, "Evaluate expressions in workflows and actions" and "Contexts
//! reference").
//!
//! Types are trees here, for callers that keep no table of objects: each call adds its trees to a
//! table, and takes the result out as a tree. Everything else is re-exported from the crates of the
//! grammar and of types. Spans are bytes, from 0: of a chunk in its text, of everything else in the
//! content of its chunk.
//!
//! # Examples
//!
//! The type of an expression under a scope:
//!
//! ```rust
//! use al_expr::{Form, Scope, parse_expr, type_of};
//! use al_text::Fault;
//! use std::alloc::{AllocError, Global};
//!
//! /// The form of a content's type where `scope` is what it can refer to, such as a boolean for
//! /// `github.ref == 'x'`; `None` if it isn't an expression. Its faults are added to a list.
//! fn form_of(
//!     alloc: Global,
//!     scope: &Scope,
//!     content: &str,
//!     faults: &mut Vec<Fault>,
//! ) -> Result<Option<Form>, AllocError> {
//!     match parse_expr(alloc, content)? {
//!         Ok(expr) => Ok(Some(type_of(alloc, scope, &expr, faults)?.form())),
//!         Err(fault) => {
//!             faults.push(fault)?;
//!             Ok(None)
//!         }
//!     }
//! }
//! ```
#![tactic(auto)]

mod adding;
mod copying;
mod fusing;
mod listings;
mod relations;
mod scope;
mod taking;
mod trees;
mod typing;

pub use al_expr_grammar::{
    Chunk, Expr, Keyword, Operand, Operator, PathStep, Token, TokenKind, Word, chunks, extent,
    grammar, lex, parse_expr,
};
pub use al_expr_names::{
    Available, CONTEXTS, Context, Function, Parameters, Returned, SPECIAL_FUNCTIONS, Signature,
    Wanted, signature_of,
};
pub use al_types::Form;
pub use fusing::fuse;
pub use relations::assignable;
pub use scope::{ContextTypes, Scope};
pub use taking::tree_of;
pub use trees::{Field, Ty};
pub use typing::type_of;

#[cfg(test)]
mod tests;
#[cfg(test)]
mod type_tests;
