// What the vertices that are applied take from the words.
ghost use Rattle.std.specs.Prelude.{◌≡◌, ℕ, List, ◌∷◌, All, length};
ghost use Rattle.bolt_base.specs.Residue.{Amount};
ghost use Rattle.agg_words.specs.View.{times};
ghost use Rattle.vertex_expr.specs.declared.program.Combine.TheVariants.{Sum as SumIs};
ghost use Rattle.run_model.specs.Program.{lanes};
ghost use Rattle.run_model.specs.Refined.{agg_again};
ghost use Rattle.run_model.specs.Steps.{Step};
ghost use Rattle.sum_steps.specs.Taken.{HasWords};
ghost use Rattle.refine_tasks.specs.Taking.{AreTakenTo, TakingBegins, TakingEnds};

use agg_words::{AggSeat, AggWords};
use bolt_base::Lanes;
use sum_steps::take_target;
use vertex_expr::Program;

/// The aggregate of the next vertex that is applied at an iteration of a sum program. Where it is
/// the next target, its words are taken and added to its old aggregate; others keep theirs.
pub fn next_aggregate(
    program: &Program,
    words: &AggWords,
    seat: &mut AggSeat,
    targets: &[u32],
    next: &mut usize,
    old: &Lanes,
    v: u32,
) -> Lanes
    requires table { seat.old.table ≡ words.now.table }
    requires units { seat.old.view.units ≡ words.now.layout.units }
    requires words { All (HasWords program.now words.now.layout) targets.now }
    requires old { length old.now ≡ lanes program.now }
    requires sum { program.now.combine ≡ SumIs }
    ensures table { seat.new.table ≡ seat.old.table }
    ensures units { seat.new.view.units ≡ seat.old.view.units }
    ensures taken { (s : Step) (start : List Amount) (vs : List ℕ)
        → AreTakenTo program.now s words.now.layout targets.now start next.old (v ∷ vs)
        seat.old.view → times v vs ≡ 0
        → AreTakenTo program.now s words.now.layout targets.now start next.new vs seat.new.view }
    ensures agg { (s : Step) (start : List Amount) (vs : List ℕ)
        → AreTakenTo program.now s words.now.layout targets.now start next.old (v ∷ vs)
        seat.old.view → times v vs ≡ 0 → result ≡ agg_again program.now s old.now v }
{
    if *next < targets.len() && targets[*next] == v {
        *next += 1;
        take_target(program, words, seat, old, v)
    } else {
        *old
    }
}

/// Taking begins with nothing taken, and ends with the amounts of the whole iteration. Nothing runs
/// here.
pub fn taking_goes_on()
    ensures begins { TakingBegins }
    ensures ends { TakingEnds }
{}
