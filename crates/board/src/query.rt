// Questions about an answer.
ghost use Rattle.std.specs.Prelude.{◌≡◌, ◌<◌};
ghost use Rattle.run_model.specs.Rows.{lane_total};
ghost use Rattle.board.specs.Queries.{HasLane, at_least, means};

use crate::places::Places;
use bolt_base::Lanes;

/// A question about an answer. Lanes are counted from 0.
#[derive(Clone, Copy, Debug, PartialEq, Eq)]
pub enum Query {
    /// The value of a vertex.
    Value(u32),
    /// The sum of a lane.
    Total(u32),
    /// How many vertices have a number in a lane that is at least this one.
    AtLeast(u32, i64),
    /// The published prefix alone.
    Prefix,
}

/// What is answered to a question.
#[derive(Clone, Copy, Debug)]
pub enum Body {
    /// The value of the vertex, lane by lane.
    Value(Lanes),
    /// The sum of the lane.
    Total(i128),
    /// The number of vertices.
    Count(u32),
    /// Nothing further.
    Prefix,
    /// The vertex isn't below the number of vertices.
    NoVertex { vertices: u32 },
}

// The sum of a lane.
#[tactic(auto, using(run_model::proofs::LaneSums::sum_grows, run_model::proofs::LaneSums::sum_fits))]
fn total(places: &Places, lane: u32) -> i128
    requires { lane < places.now.width }
    ensures { result ≡ lane_total lane places.now.values }
{
    let mut total = 0;
    for vertex in 0..places.len() {
        total += i128::from(places.number(vertex, lane));
    }
    total
}

// How many vertices have a number in a lane that is at least `least`.
fn count_at_least(places: &Places, lane: u32, least: i64) -> u32
    requires { lane < places.now.width }
    ensures { result ≡ at_least lane least places.now.values }
{
    let mut count = 0;
    for vertex in 0..places.len() {
        if least <= places.number(vertex, lane) {
            count += 1;
        }
    }
    count
}

/// What a query means on an answer.
pub(crate) fn meaning(query: &Query, places: &Places) -> Body
    requires lane { HasLane query.now places.now.width }
    ensures { result ≡ means query.now places.now.values }
{
    match *query {
        Query::Value(vertex) if vertex < places.len() => Body::Value(places.value(vertex)),
        Query::Value(_) => Body::NoVertex {
            vertices: places.len(),
        },
        Query::Total(lane) => Body::Total(total(places, lane)),
        Query::AtLeast(lane, least) => Body::Count(count_at_least(places, lane, least)),
        Query::Prefix => Body::Prefix,
    }
}
