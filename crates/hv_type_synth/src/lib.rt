//! The types of expressions, places and callees, without memory of their own, and what the rules of types ask of them.
#![tactic(auto)]

mod around;
mod fits;
mod same;
mod types;
mod typing;

pub use around::{
    Around, has_index, is_handle, is_read_only, is_struct_name, local_named, no_handle, no_value,
    place_type, root_type,
};
pub use fits::{
    differ, held, is_equality, known_to_hold, misfits, no_array, no_field, no_function, other,
    signature_differs,
};
pub use types::{Base, HeldType, Signature, Takes, Typed, Wants};
pub use typing::{known, next_wanted, operand_type, or_nothing, signature_of, type_of};
