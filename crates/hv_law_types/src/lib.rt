//! That the tests by which types are judged decide what the rules of types say.
#![tactic(auto)]

mod law;

pub use law::tests_say_what_the_rules_say;
