// A batch that is made, and its round, which is held.
ghost use Rattle.std.specs.Prelude.{◌≡◌, ◌+◌, ◌<◌, ◌≤◌, ◌^◌, None, length, IfOk, OnErr};
ghost use Rattle.graph_text.specs.declared.batch_reader.TheConstants.{MOST_EDITS};
ghost use Rattle.round_journal.specs.declared.outcome.Outcome.TheVariants.{Accepted};
ghost use Rattle.engine_runs.specs.State.{IsUnderWay};
ghost use Rattle.live_works.specs.Beside.{HasMade, IsBeside, becomes};

use board::{Publisher, RoundNote};
use bolt_base::{ChangeList, EditList, Gate, Memory};
use engine_runs::prepare_batch;
use graph_text::BatchText;
use round_engine::{Engine, Prepared, Round};
use round_journal::Outcome;
use std::alloc::Global;
use std::thread::Threads;

// What is to be published of a prepared batch.
fn note_of(alloc: Global, prepared: &Prepared) -> Result<RoundNote, Memory>
    ensures edits { IfOk result (λ n. n.edits ≡ prepared.now.edits) }
    ensures changes { IfOk result (λ n. n.changes ≡ prepared.now.changes) }
{
    let edits = EditList::from_slice(alloc, prepared.edits())?;
    let changes = ChangeList::from_slice(alloc, prepared.changes())?;
    Ok(RoundNote { edits, changes })
}

// What became of a batch that was committed.
fn outcome_of(round: &Round) -> Outcome
    ensures { let r = round.now in result
        ≡ Accepted r.number r.added r.removed r.edges r.kept r.visits }
{
    Outcome::Accepted {
        round: round.number,
        added: round.added,
        removed: round.removed,
        edges: round.edges,
        kept: round.kept,
        visits: round.visits,
    }
}

/// Makes a batch. An accepted one is committed, and its round is held.
pub(crate) fn make_batch<R: Threads + Sync, T: Gate + Sync>(
    rt: &R,
    alloc: Global,
    gate: &T,
    engine: &mut Engine,
    publisher: &mut Publisher,
    batch: &BatchText,
) -> Result<Outcome, Memory>
    requires ready { IsUnderWay engine.old }
    requires paired { length batch.now.lines ≡ length batch.now.edits }
    requires small { length batch.now.edits ≤ MOST_EDITS }
    requires few { engine.old.number + 1 < 2 ^ 64 }
    requires none { publisher.old.held ≡ None }
    requires beside { IsBeside publisher.old engine.old }
    ensures outcome { IfOk result (λ o. o ≡ becomes engine.old batch.now) }
    ensures made { IfOk result (λ o. HasMade o publisher.old publisher.new
        engine.old engine.new batch.now.edits) }
    ensures publisher { OnErr result (publisher.new ≡ publisher.old) }
    ensures engine { OnErr result (engine.new ≡ engine.old) }
    ensures choice { engine.new.choice ≡ engine.old.choice }
    ensures origin { publisher.new.origin ≡ publisher.old.origin }
    ensures book { publisher.new.book ≡ publisher.old.book }
{
    let _graph = engine.graph();
    let prepared = match prepare_batch(engine, rt, alloc, gate, batch)? {
        Ok(prepared) => prepared,
        Err(bad) => {
            return Ok(Outcome::Refused {
                line: bad.line,
                cause: bad.cause,
            });
        }
    };
    let Ok(note) = note_of(alloc, &prepared) else {
        engine.abandon(prepared);
        return Err(Memory);
    };
    match publisher.hold(note) {
        Ok(()) => {
            let round = engine.commit(prepared);
            Ok(outcome_of(&round))
        }
        Err(Memory) => {
            engine.abandon(prepared);
            Err(Memory)
        }
    }
}
