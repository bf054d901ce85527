// What stands at the ends of an edge.

/// How many arcs a row has, and the weight of one of its ends, if it has that end.
#[derive(Clone, Copy)]
pub struct Spot {
    pub degree: usize,
    pub weight: Option<i64>,
}

/// The degree out of a source, the degree into a destination, and the weight of the edge between
/// them, if there is one.
#[derive(Clone, Copy)]
pub struct Ends {
    pub out_degree: usize,
    pub in_degree: usize,
    pub weight: Option<i64>,
}
