//! Laws of traces: flows whose events carry something else or more, and the accesses that are open at each event.
#![tactic(auto)]

mod law;

pub use law::{
    carrying_flows_have_the_traces, mapped_flows_have_the_traces, open_accesses_are_lexical,
};
