//! Events, and the rules of initialisation, exclusivity and handles; what is accepted.
#![tactic(auto)]

mod event;

pub use event::FlowEvent;
pub use hv_decls::{StaticPath, StaticStep, has_index, overlap};
pub use hv_tree::earlier;
