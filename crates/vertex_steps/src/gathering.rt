// Contributions that are added in place.
ghost use Rattle.std.specs.Prelude.{◌≡◌, ◌<◌, ℕ, length, map, FitsSigned};
ghost use Rattle.std.specs.Int.{w64};
ghost use Rattle.std.specs.List.{range_with_len};
ghost use Rattle.range_check.specs.Gathered.{with_one};
ghost use Rattle.run_model.specs.Program.{number};

use bolt_base::Lanes;
use run_model::with_one;
use vertex_expr::Combine;

/// Adds a contribution to what others came to, lane by lane.
#[inline]
pub fn gather(combine: Combine, totals: &mut Lanes, ones: &Lanes)
    requires long { length totals.old ≡ length ones.now }
    requires fits { (l : ℕ) → l < length ones.now
        → FitsSigned w64 (with_one combine (number totals.old l) (number ones.now l)) }
    ensures totals { totals.new
        ≡ map (λ l. with_one combine (number totals.old l) (number ones.now l))
        (range_with_len 0 (length ones.now)) }
{
    for lane in 0..totals.width() {
        let total = with_one(combine, totals.get(lane), ones.get(lane));
        totals.set(lane, total);
    }
}
