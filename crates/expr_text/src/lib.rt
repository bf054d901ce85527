//! The expressions of a program text: how they are read, a token at a time, and their canonical
//! text.
#![tactic(auto)]

mod calls;
mod expression;
mod frames;
mod laws;
mod names;
mod printing;
mod reading;
mod scope;
mod stack;
mod steps;

pub use expression::read_expression;
pub use laws::{follows_grammar, reads_back};
pub use names::is_taken;
pub use printing::append_expression;
pub use scope::Scope;
