// Intervals and their arithmetic.
ghost use Rattle.std.specs.Prelude.{◌≡◌, ◌≤◌, ◌≤ℤ◌, ◌*ℤ◌, ◌^◌, ℤ, false, IfSome, IfNone};
ghost use Rattle.vertex_expr.specs.Floor.{floor_div};
ghost use Rattle.vertex_expr.specs.Span.{only, hull, holds_zero, least_span, greatest_span, joined};
ghost use Rattle.range_check.specs.Arith.{AreSmall, IsProper, narrowed, span};
ghost use Rattle.range_check.specs.Arith.{clamp_span, minus_span, over_span, plus_span, times_span};
ghost use Rattle.range_check.specs.Breaks.{is_within, is_word};

use std::marker::Model;
use vertex_expr::{Combine, LaneRange, floor_div};

/// The whole numbers from a lower to an upper end, both within -2^120 to 2^120. The arithmetic
/// answers none exactly where the result would leave them.
#[derive(Clone, Copy, Debug)]
pub struct Interval {
    low: i128,
    high: i128,
}

impl Model for Interval {
    ghost use Rattle.vertex_expr.specs.Span.{Span};
    ghost use Rattle.range_check.specs.Arith.{IsProper, span};

    ghost Value = { Span };

    ghost view = { λ i. span i.low i.high };

    ghost invariant = { λ i. IsProper (span i.low i.high) };

    ghost inverse = { λ s. record { low = s.low; high = s.high } };
}

// The greatest end of an interval.
const WIDEST: i128 = 1 << 120;

impl Interval {
    /// The interval with these ends.
    pub fn new(low: i128, high: i128) -> Option<Interval>
        requires order { low ≤ℤ high }
        ensures interval { result ≡ narrowed (span low high) }
    {
        if -WIDEST <= low && high <= WIDEST {
            Some(Interval { low, high })
        } else {
            None
        }
    }

    /// The interval of one number.
    pub fn only(x: i64) -> Option<Interval>
        ensures interval { result ≡ narrowed (only x) }
    {
        Interval::new(i128::from(x), i128::from(x))
    }

    /// The interval itself, as the arithmetic answers it.
    pub fn whole(self) -> Option<Interval>
        ensures whole { result ≡ narrowed self }
    {
        Interval::new(self.low, self.high)
    }

    /// The lower end.
    pub fn low(self) -> i128
        ensures low { result ≡ self.low }
        ensures proper { IsProper self }
    {
        self.low
    }

    /// The upper end.
    pub fn high(self) -> i128
        ensures high { result ≡ self.high }
        ensures proper { IsProper self }
    {
        self.high
    }

    /// Whether 0 lies in it.
    pub fn holds_zero(self) -> bool
        ensures zero { result ≡ holds_zero self }
    {
        self.low <= 0 && 0 <= self.high
    }

    /// Whether it lies within i64.
    pub fn is_word(self) -> bool
        ensures word { result ≡ is_word self }
    {
        i128::from(i64::MIN) <= self.low && self.high <= i128::from(i64::MAX)
    }

    /// Whether it lies within the range of a lane.
    pub fn is_within(self, range: LaneRange) -> bool
        ensures within { result ≡ is_within range self }
    {
        i128::from(range.lo) <= self.low && self.high <= i128::from(range.hi)
    }

    pub fn plus(self, other: Interval) -> Option<Interval>
        ensures sum { result ≡ narrowed (plus_span self other) }
    {
        Interval::new(self.low + other.low, self.high + other.high)
    }

    pub fn minus(self, other: Interval) -> Option<Interval>
        ensures difference { result ≡ narrowed (minus_span self other) }
    {
        Interval::new(self.low - other.high, self.high - other.low)
    }

    pub fn least(self, other: Interval) -> Option<Interval>
        ensures least { result ≡ narrowed (least_span self other) }
    {
        Interval::new(self.low.min(other.low), self.high.min(other.high))
    }

    pub fn greatest(self, other: Interval) -> Option<Interval>
        ensures greatest { result ≡ narrowed (greatest_span self other) }
    {
        Interval::new(self.low.max(other.low), self.high.max(other.high))
    }

    pub fn joined(self, other: Interval) -> Option<Interval>
        ensures joined { result ≡ narrowed (joined self other) }
    {
        Interval::new(self.low.min(other.low), self.high.max(other.high))
    }

    /// From the greater of `low`'s and of the lesser of the others', end by end.
    pub fn clamp(self, low: Interval, high: Interval) -> Option<Interval>
        ensures clamped { result ≡ narrowed (clamp_span self low high) }
    {
        Interval::new(
            low.low.max(self.low.min(high.low)),
            low.high.max(self.high.min(high.high)),
        )
    }

    pub fn times(self, other: Interval) -> Option<Interval>
        ensures product { result ≡ narrowed (times_span self other) }
    {
        let (p, q) = products(self.low, other)?;
        let (r, s) = products(self.high, other)?;
        hull(p, q, r, s)
    }

    /// The greatest whole numbers that are at most the quotients.
    pub fn over(self, other: Interval) -> Option<Interval>
        requires divisor { holds_zero other ≡ false }
        ensures quotient { result ≡ narrowed (over_span self other) }
    {
        hull(
            floor_div(self.low, other.low),
            floor_div(self.low, other.high),
            floor_div(self.high, other.low),
            floor_div(self.high, other.high),
        )
    }
}

// The products of a number with both ends of an interval, or none where one is past 2^127.
fn products(x: i128, span: Interval) -> Option<(i128, i128)>
    ensures some { IfSome result (λ p. (p.0 ≡ x *ℤ span.low) × (p.1 ≡ x *ℤ span.high)) }
    ensures none { IfNone result (¬ AreSmall x span) }
{
    let low = x.checked_mul(span.low)?;
    let high = x.checked_mul(span.high)?;
    Some((low, high))
}

// From the least to the greatest of four numbers.
fn hull(p: i128, q: i128, r: i128, s: i128) -> Option<Interval>
    ensures hull { result ≡ narrowed (hull p q r s) }
{
    let low = p.min(q).min(r.min(s));
    let high = p.max(q).max(r.max(s));
    Interval::new(low, high)
}
