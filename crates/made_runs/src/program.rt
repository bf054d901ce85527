// The shipped program `rank`.
ghost use Rattle.std.specs.Prelude.{◌≡◌, IfOk};
ghost use Rattle.bolt_ship.specs.Texts.{rank_text as rank_text_of};
ghost use Rattle.command_course.specs.Programs.{or_refused};
ghost use Rattle.program_files.specs.Judged.{judged};
ghost use Rattle.made_runs.specs.Rank.{rank_limits};

use batch_steps::Reply;
use bolt_base::Memory;
use bolt_ship::shipped;
use command_opening::program_or_reply;
use program_files::judge;
use range_check::Accepted;
use std::alloc::Global;

// Its text.
fn rank_text() -> &'static [u8]
    ensures { result.now ≡ rank_text_of }
{
    match shipped("rank") {
        Some(text) => text,
        None => b"",
    }
}

/// The program, or the reply that refuses it.
pub(crate) fn judge_rank(alloc: Global) -> Result<Result<Accepted, Reply>, Memory>
    ensures program { IfOk result (λ r. or_refused (judged rank_text_of) ≡ r) }
    ensures limits { IfOk result (λ r. IfOk r (λ p. p.limits ≡ rank_limits)) }
{
    let judged = judge(alloc, rank_text())?;
    Ok(program_or_reply(alloc, judged)?)
}
