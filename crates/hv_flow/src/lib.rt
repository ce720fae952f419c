//! What a body may do, as a graph.
#![tactic(auto)]

mod body;
mod build;
mod nodes;
mod waiting;

pub use body::graph;
pub use build::graph_of;
pub use nodes::{FlowGraph, Node};
