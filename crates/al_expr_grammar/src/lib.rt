//! The grammar of expressions, `${{ .. }}`: the chunks of a text, and whether it is one alone;
//! tokens, trees, and the fault of a content that isn't an expression.
#![tactic(auto)]

mod ast;
mod chunk;
mod expression;
mod extents;
mod faults;
mod law;
mod lexer;
mod lone;
mod number;
mod parser;
mod token;
mod worked;

pub use ast::{Expr, Operand, PathStep, Word};
pub use chunk::{Chunk, chunks};
pub use expression::parse_expr;
pub use extents::{across, extent, path_extent};
pub use law::{all_lie_inside, grammar};
pub use lexer::lex;
pub use lone::{Around, is_lone, is_lone_chunk};
pub use token::{Keyword, Operator, Token, TokenKind};
pub use worked::{chunk_rows, token_rows, tree_rows};
