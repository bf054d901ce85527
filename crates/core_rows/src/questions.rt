// What a question means on an answer.
ghost use Rattle.std.specs.Prelude.{◌≡◌, ◌<◌, ◌^◌, length, slice_get};
ghost use Rattle.std.specs.List.{All};
ghost use Rattle.run_model.specs.Rows.{lane_total};
ghost use Rattle.board.specs.Queries.{HasLane, at_least, found_or, means};

use board::{Body, Query};
use bolt_base::Lanes;

// The sum of a lane.
#[tactic(auto, using(run_model::proofs::LaneSums::sum_grows, run_model::proofs::LaneSums::sum_fits))]
fn total(values: &[Lanes], lane: u32) -> i128
    requires few { length values.now < 2 ^ 32 }
    requires lane { All (λ value. lane < length value) values.now }
    ensures { result ≡ lane_total lane values.now }
{
    let mut total = 0;
    for value in values {
        total += i128::from(value.get(lane));
    }
    total
}

// How many vertices have a number in a lane that is at least `least`.
fn count_at_least(values: &[Lanes], lane: u32, least: i64) -> u32
    requires few { length values.now < 2 ^ 32 }
    requires lane { All (λ value. lane < length value) values.now }
    ensures { result ≡ at_least lane least values.now }
{
    let mut count = 0;
    for value in values {
        if least <= value.get(lane) {
            count += 1;
        }
    }
    count
}

// The value of a vertex, or that it isn't there.
fn found(values: &[Lanes], vertex: u32) -> Body
    requires few { length values.now < 2 ^ 32 }
    ensures { result ≡ found_or (slice_get values.now vertex) (length values.now) }
{
    match values.get(vertex as usize) {
        Some(value) => Body::Value(*value),
        None => Body::NoVertex {
            vertices: values.len() as u32,
        },
    }
}

/// What a question means on an answer, whose values have so many lanes.
pub fn meaning(query: &Query, values: &[Lanes], lanes: u32) -> Body
    requires few { length values.now < 2 ^ 32 }
    requires wide { All (λ value. length value ≡ lanes) values.now }
    requires lane { HasLane query.now lanes }
    ensures { result ≡ means query.now values.now }
{
    match *query {
        Query::Value(vertex) => found(values, vertex),
        Query::Total(lane) => Body::Total(total(values, lane)),
        Query::AtLeast(lane, least) => Body::Count(count_at_least(values, lane, least)),
        Query::Prefix => Body::Prefix,
    }
}
