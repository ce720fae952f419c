//! The rules of types for each part of a body alone.
#![tactic(auto)]

mod calls;
mod law;
mod names;
mod parts;
mod positions;
mod refuse;
mod wants;

pub use calls::judge_call;
pub use law::parts_are_judged_exactly;
pub use parts::{judge_expr, judge_place, judge_stmt, judge_test};
