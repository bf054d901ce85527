// Taking what the words hold for targets.
ghost use Rattle.std.specs.Prelude.{◌≡◌, ℕ, ◌+◌, ◌*◌, ◌<◌, ◌≤◌, All, List, [], ◌∷◌, ◌++◌};
ghost use Rattle.std.specs.Prelude.{drop, length};
ghost use Rattle.bolt_base.specs.Residue.{Amount};
ghost use Rattle.agg_words.specs.Known.{IsClear};
ghost use Rattle.agg_words.specs.View.{times};
ghost use Rattle.vertex_expr.specs.declared.program.ProgramEntries.{ProgramEntries};
ghost use Rattle.run_model.specs.Program.{lanes};
ghost use Rattle.run_model.specs.Refined.{with_words};
ghost use Rattle.sum_steps.specs.Taken.{AreLeft, HasWords, IsTaken, takes_at};

use agg_words::{AggSeat, AggWords};
use bolt_base::Lanes;
use vertex_expr::Program;

/// Takes the words of a vertex, lane by lane, and answers its old aggregate with what they held,
/// with wrap-around. Its words are 0 then. Where the words hold amounts for targets, it is left out
/// of these.
pub fn take_target(
    program: &Program,
    words: &AggWords,
    seat: &mut AggSeat,
    old: &Lanes,
    v: u32,
) -> Lanes
    requires table { seat.old.table ≡ words.now.table }
    requires units { seat.old.view.units ≡ words.now.layout.units }
    requires words { HasWords program.now words.now.layout v }
    requires old { length old.now ≡ lanes program.now }
    ensures agg { result ≡ with_words program.now seat.old.view.amounts old.now v }
    ensures seat { seat.new ≡ record seat.old {
      view = record seat.old.view {
        amounts = seat.old.view.amounts ++ takes_at program.now seat.old.view.amounts v;
      };
    } }
    ensures left { (amounts : List Amount) (rest : List ℕ)
        → AreLeft program.now words.now.layout amounts (v ∷ rest) seat.old.view
        → IsTaken program.now words.now.layout amounts old.now v rest result seat.old.view
        seat.new.view }
{
    let lanes = old.width();
    let _words = words.layout().words;
    let first = v * lanes;
    let mut agg = Lanes::zeros(lanes);
    for lane in 0..lanes {
        let taken = words.take(seat, first + lane);
        agg.set(lane, old.get(lane).wrapping_add(taken));
    }
    agg
}

/// Wipes the marks of the targets, where these are all marks. Where all words were taken, the table
/// is ready again.
pub fn wipe_marks(words: &AggWords, seat: &mut AggSeat, targets: &[u32])
    requires table { seat.old.table ≡ words.now.table }
    requires units { seat.old.view.units ≡ words.now.layout.units }
    requires bits { All (λ v. v < words.now.layout.bits) targets.now }
    requires marks { All (λ bit. 0 < times bit targets.now) seat.old.view.marks }
    ensures seat { seat.new ≡ record seat.old {
      view = record seat.old.view {
        marks = [];
        met = [];
      };
    } }
    ensures clear { (p : ProgramEntries) (amounts : List Amount) → 1 ≤ lanes p
        → AreLeft p words.now.layout amounts [] seat.old.view
        → IsClear words.now.layout seat.new.view }
{
    words.wipe_bits(seat, targets);
}

// Takes the words of the targets from place `taken` on.
fn take_rest(program: &Program, words: &AggWords, seat: &mut AggSeat, targets: &[u32], taken: usize)
    requires table { seat.old.table ≡ words.now.table }
    requires units { seat.old.view.units ≡ words.now.layout.units }
    requires words { All (HasWords program.now words.now.layout) targets.now }
    requires inside { taken ≤ length targets.now }
    requires lanes { (1 ≤ lanes program.now) × (lanes program.now ≤ 8) }
    ensures table { seat.new.table ≡ seat.old.table }
    ensures units { seat.new.view.units ≡ seat.old.view.units }
    ensures marks { seat.new.view.marks ≡ seat.old.view.marks }
    ensures left { (amounts : List Amount)
        → AreLeft program.now words.now.layout amounts (drop taken targets.now) seat.old.view
        → AreLeft program.now words.now.layout amounts [] seat.new.view }
{
    let zeros = Lanes::zeros(program.entries().ranges.len() as u32);
    for place in taken..targets.len() {
        take_target(program, words, seat, &zeros, targets[place]);
    }
}

/// After a refusal: takes the words of the targets from place `taken` on, and wipes the marks of
/// all targets, so that the table is ready again.
pub fn clear_targets(
    program: &Program,
    words: &AggWords,
    seat: &mut AggSeat,
    targets: &[u32],
    taken: usize,
)
    requires table { seat.old.table ≡ words.now.table }
    requires units { seat.old.view.units ≡ words.now.layout.units }
    requires words { All (HasWords program.now words.now.layout) targets.now }
    requires bits { All (λ v. v < words.now.layout.bits) targets.now }
    requires marks { All (λ bit. 0 < times bit targets.now) seat.old.view.marks }
    requires inside { taken ≤ length targets.now }
    requires lanes { (1 ≤ lanes program.now) × (lanes program.now ≤ 8) }
    ensures table { seat.new.table ≡ seat.old.table }
    ensures clear { (amounts : List Amount)
        → AreLeft program.now words.now.layout amounts (drop taken targets.now) seat.old.view
        → IsClear words.now.layout seat.new.view }
{
    take_rest(program, words, seat, targets, taken);
    wipe_marks(words, seat, targets);
}
