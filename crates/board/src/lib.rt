//! The answer that one publisher changes and desks read without waiting for one another, each
//! seeing a beginning of one log of rounds.
#![tactic(auto)]

mod book;
mod desk;
mod face;
mod kinds;
mod note;
mod places;
mod publisher;
mod query;
mod rule;

pub use book::Receipt;
pub use desk::{Desk, DeskList, Reply};
pub use note::RoundNote;
pub use publisher::{MOST_DESKS, Publisher, open};
pub use query::{Body, Query};
