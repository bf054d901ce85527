//! Refinement of min and max programs: where an edge changed, or its source contributes otherwise,
//! the aggregate is evaluated again over all edges into the vertex.
#![tactic(auto)]

mod aggregates;
mod applying;
mod iteration;
mod pulling;
mod putting;
mod refine;

pub use refine::refine_pull;
