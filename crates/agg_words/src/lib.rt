//! Aggregate words and mark words that several threads change by single atomic steps, under one
//! rule.
#![tactic(auto)]

mod clear;
mod laws;
mod layout;
mod seat;
mod steps;
mod table;
#[cfg(test)]
mod tests;
mod view;

pub use laws::full_seat_tells_all;
pub use layout::Layout;
pub use seat::AggSeat;
pub use table::AggWords;
pub use view::View;
