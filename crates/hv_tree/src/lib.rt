//! Places, refusals, task ids, tokens and the syntax tree, as plain data.
#![tactic(auto)]

mod ast;
pub mod builders;
mod least;
mod order;
mod place;
mod refusal;
mod task;
mod text;
mod token;
mod types;

pub use ast::{
    Arg, Block, Branch, Call, Decl, Expr, ExprKind, Field, FunDecl, Operator, Param, PlaceExpr,
    Step, Stmt, StmtKind, StructDecl, Tree,
};
pub use least::first;
pub use order::earlier;
pub use place::{Place, line_col};
pub use refusal::{Edition, Refusal, Rule};
pub use task::{Named, TaskId};
pub use text::Text;
pub use token::{Token, TokenKind};
pub use types::{Conv, Name, Ty};
