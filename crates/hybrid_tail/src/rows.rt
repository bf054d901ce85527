// The rows of the iterations past the cut.
use bolt_base::Lanes;

/// The aggregates and the values of an iteration, the values of the one before it, and the vertices
/// whose values differ between the two, rising.
#[derive(Drop)]
pub(crate) struct TailRows {
    pub(crate) aggs: Vec<Lanes>,
    pub(crate) vals: Vec<Lanes>,
    pub(crate) last: Vec<Lanes>,
    pub(crate) moved: Vec<u32>,
}
