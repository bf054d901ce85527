//! Expressions and programs of vertices: what they are, what they mean, in what intervals their
//! values lie, and how they are evaluated.
#![tactic(auto)]

mod depth;
mod env;
mod evaluation;
mod expr;
mod laws;
mod mentions;
mod program;
#[cfg(test)]
mod tests;

pub use depth::is_shallow;
pub use env::Env;
pub use evaluation::{eval, floor_div};
pub use expr::{Compare, Expr, Operand, Part};
pub use laws::{
    all_are_numbered, boxes_are_sound, floor_is_greatest, only_mentioned_matters,
    programs_are_known, unbroken_is_safe,
};
pub use mentions::{mentions_attr, mentions_outdeg, mentions_weight};
pub use program::{
    Combine, ExprList, LaneRange, NamedParam, ParamList, Program, ProgramEntries, RangeList,
};
