//! What a body may do, written down as a plan.
#![tactic(auto)]

mod body;
mod doing;
mod exprs;
mod paths;
mod plan;
mod scope;
mod stmts;

pub use body::{Planned, plan_of_body, plans};
pub use plan::FlowOp;
