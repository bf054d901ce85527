//! The rows of a program on a graph, what a changed graph does to them, and what that costs.
#![tactic(auto)]

mod given;
mod laws;
mod numbers;
mod plain;

pub use given::{Contributions, is_weightless};
pub use laws::{
    bounds_are_evaluable, changes_are_known, kept_is_least, logs_stay_right, numbers_fit,
    others_stay, rows_are_computed, rows_are_in_range, rows_are_refined, sums_are_refined,
    tail_is_refined, targets_are_named, visits_add_up,
};
pub use numbers::{empties, empty_of, evaluated, with_one, with_ones};
pub use plain::plain_run;
