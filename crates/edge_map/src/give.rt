// What one edge adds.
ghost use Rattle.std.specs.Prelude.{◌≡◌, ℕ, ◌+◌, ◌-ℤ◌, ◌*◌, ◌<◌, ◌≤◌, length, take, map, List, []};
ghost use Rattle.std.specs.Prelude.{◌∷◌, ◌++◌};
ghost use Rattle.std.specs.Int.{int_wrap, w64};
ghost use Rattle.std.specs.List.{range_with_len};
ghost use Rattle.run_model.specs.Program.{number};
ghost use Rattle.bolt_base.specs.Residue.{Amount};
ghost use Rattle.agg_words.specs.View.{View};
ghost use Rattle.edge_map.specs.Grew.{Grew, AreMarked, HasPlace, lane_adds};

use agg_words::{AggSeat, AggWords};
use bolt_base::Lanes;

/// One number less the other, lane by lane, with wrap-around.
pub(crate) fn less(now: &Lanes, was: &Lanes) -> Lanes
    requires same { length now.now ≡ length was.now }
    ensures numbers { result ≡ map (λ l. int_wrap w64 (number now.now l -ℤ number was.now l))
        (range_with_len 0 (length now.now)) }
{
    let lanes = now.width();
    let mut numbers = Lanes::zeros(lanes);
    for lane in 0..lanes {
        numbers.set(lane, now.get(lane).wrapping_sub(was.get(lane)));
    }
    numbers
}

// Adds a vertex's amounts, lane by lane.
fn add_lanes(words: &AggWords, seat: &mut AggSeat, dst: u32, amounts: &Lanes)
    requires table { seat.old.table ≡ words.now.table }
    requires unit { 1 ≤ seat.old.view.units }
    requires words { (dst + 1) * length amounts.now ≤ words.now.layout.words }
    ensures { seat.new ≡ record seat.old {
      view = record seat.old.view
          { amounts = seat.old.view.amounts ++ lane_adds dst amounts.now };
    } }
{
    let lanes = amounts.width();
    let _words = words.layout().words;
    let first = dst * lanes;
    for lane in 0..lanes {
        let amount = amounts.get(lane).cast_unsigned();
        words.add(seat, first + lane, amount);
    }
}

/// Adds a vertex's amounts and marks it. A vertex that wasn't marked is put behind the `count`
/// targets.
pub(crate) fn give(
    words: &AggWords,
    seat: &mut AggSeat,
    dst: u32,
    amounts: &Lanes,
    targets: &mut [u32],
    count: usize,
) -> usize
    requires table { seat.old.table ≡ words.now.table }
    requires unit { 1 ≤ seat.old.view.units }
    requires words { (dst + 1) * length amounts.now ≤ words.now.layout.words }
    requires bit { dst < words.now.layout.bits }
    requires place { HasPlace seat.old.view dst count targets.old }
    ensures table { seat.new.table ≡ seat.old.table }
    ensures units { seat.new.view.units ≡ seat.old.view.units }
    ensures count { (count ≤ result) × (result ≤ count + 1) }
    ensures grew { (start : View) (more : List Amount) (ends : List ℕ)
        → Grew start seat.old.view more ends (take count targets.old)
        → Grew start seat.new.view (more ++ lane_adds dst amounts.now) (ends ++ dst ∷ [])
        (take result targets.new) }
    ensures marked { (n : ℕ) → dst < n → AreMarked n seat.old.view count targets.old
        → AreMarked n seat.new.view result targets.new }
{
    add_lanes(words, seat, dst, amounts);
    if words.mark(seat, dst) {
        targets[count] = dst;
        count + 1
    } else {
        count
    }
}
