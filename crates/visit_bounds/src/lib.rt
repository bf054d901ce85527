//! How many edges an opening and a batch may read: so few that they can be counted in a u64.
#![tactic(auto)]

mod laws;

pub use laws::visits_fit;
