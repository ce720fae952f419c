//! The rules of names, the types of expressions and the rules of types, as definitions.
#![tactic(auto)]
