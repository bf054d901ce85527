// What the expressions of a part read.
ghost use Rattle.std.specs.Prelude.{◌≡◌, ◌<◌, ◌-◌, pos, length, slice_index_or};
ghost use Rattle.vertex_expr.specs.ProgramBounds.{lane_spans};
ghost use Rattle.vertex_expr.specs.Span.{only};
ghost use Rattle.vertex_expr.specs.Writable.{IsWritable, values_of};
ghost use Rattle.range_check.specs.Arith.{narrowed, span};

use crate::interval::Interval;
use vertex_expr::{Part, ProgramEntries};

/// Where an expression stands: the part, the program, and the intervals of the aggregates that the
/// part may mention.
#[derive(Clone, Copy)]
pub struct Scope<'a> {
    pub part: Part,
    pub entries: &'a ProgramEntries,
    pub aggregates: &'a [Interval],
}

/// The interval of a param.
pub fn param(entries: &ProgramEntries, k: u32) -> Option<Interval>
    requires there { k < length (values_of entries.now.params) }
    ensures param { let values = values_of entries.now.params in
        result ≡ narrowed (only (slice_index_or values k (pos 0))) }
{
    Interval::only(entries.params.as_slice()[k as usize].value)
}

/// The range of a lane.
pub fn range(entries: &ProgramEntries, k: u32) -> Option<Interval>
    requires there { k < length (lane_spans entries.now.ranges) }
    requires writable { IsWritable entries.now }
    ensures range { let spans = lane_spans entries.now.ranges in
        result ≡ narrowed (slice_index_or spans k (only (pos 0))) }
{
    let range = entries.ranges.as_slice()[k as usize];
    Interval::new(i128::from(range.lo), i128::from(range.hi))
}

/// The out-degrees of vertices with an edge.
pub fn outdeg(entries: &ProgramEntries) -> Option<Interval>
    requires writable { IsWritable entries.now }
    ensures outdeg { result ≡ narrowed (span (pos 1) (pos entries.now.limits.degree)) }
{
    Interval::new(1, i128::from(entries.limits.degree))
}

/// The range of weights.
pub fn weight(entries: &ProgramEntries) -> Option<Interval>
    requires writable { IsWritable entries.now }
    ensures weight { let limits = entries.now.limits in
        result ≡ narrowed (span limits.weight_lo limits.weight_hi) }
{
    Interval::new(
        i128::from(entries.limits.weight_lo),
        i128::from(entries.limits.weight_hi),
    )
}

/// The range of attributes.
pub fn attr(entries: &ProgramEntries) -> Option<Interval>
    requires writable { IsWritable entries.now }
    ensures attr { let limits = entries.now.limits in
        result ≡ narrowed (span limits.attr_lo limits.attr_hi) }
{
    Interval::new(
        i128::from(entries.limits.attr_lo),
        i128::from(entries.limits.attr_hi),
    )
}

/// The numbers of vertices.
pub fn id(entries: &ProgramEntries) -> Option<Interval>
    requires writable { IsWritable entries.now }
    ensures id { result ≡ narrowed (span (pos 0) (pos (entries.now.limits.vertices - 1))) }
{
    Interval::new(0, i128::from(entries.limits.vertices - 1))
}

/// The interval of an aggregate.
pub fn agg(aggregates: &[Interval], k: u32) -> Option<Interval>
    requires there { k < length aggregates.now }
    ensures agg { result ≡ narrowed (slice_index_or aggregates.now k (only (pos 0))) }
{
    aggregates[k as usize].whole()
}
