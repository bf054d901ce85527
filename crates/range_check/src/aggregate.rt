// The intervals of aggregates.
ghost use Rattle.std.specs.Prelude.{◌≡◌, ◌≤◌, true};
ghost use Rattle.vertex_expr.specs.ProgramBounds.{combined};
ghost use Rattle.range_check.specs.Arith.{IsWord, aggregate_of, narrowed, sum_span};
ghost use Rattle.range_check.specs.Breaks.{is_word};

use crate::interval::Interval;
use vertex_expr::Combine;

/// What up to `degree` contributions of this interval come to, or none where it or the interval
/// leaves i64.
pub fn aggregate(contribution: Interval, combine: Combine, degree: u32) -> Option<Interval>
    requires degree { degree ≤ 1000000 }
    ensures aggregate { result ≡ aggregate_of combine degree contribution }
{
    if !contribution.is_word() {
        return None;
    }
    let span = combined(contribution, combine, degree)?;
    if span.is_word() { Some(span) } else { None }
}

fn combined(contribution: Interval, combine: Combine, degree: u32) -> Option<Interval>
    requires word { is_word contribution ≡ true }
    requires degree { degree ≤ 1000000 }
    ensures combined { result ≡ narrowed (combined combine degree contribution) }
{
    let low = contribution.low();
    let high = contribution.high();
    match combine {
        Combine::Sum => summed(low, high, degree),
        Combine::Min { empty } => {
            let empty = i128::from(empty);
            Interval::new(empty.min(low), empty)
        }
        Combine::Max { empty } => {
            let empty = i128::from(empty);
            Interval::new(empty, empty.max(high))
        }
    }
}

// From the least to the greatest sum of up to so many numbers from `low` to `high`.
fn summed(low: i128, high: i128, degree: u32) -> Option<Interval>
    requires low { IsWord low }
    requires high { IsWord high }
    requires degree { degree ≤ 1000000 }
    ensures summed { result ≡ narrowed (sum_span low high degree) }
{
    let none: i128 = 0;
    let times = i128::from(degree);
    Interval::new(none.min(times * low), none.max(times * high))
}
