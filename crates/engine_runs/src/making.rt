// What an engine makes of a batch.
ghost use Rattle.std.specs.Prelude.{◌≡◌, ◌+◌, ◌<◌, ◌≤◌, ◌^◌, None, Some, length, IfOk, IfErr, OnOk};
ghost use Rattle.std.specs.Prelude.{OnErr};
ghost use Rattle.bolt_base.specs.Edits.{after};
ghost use Rattle.graph_text.specs.declared.batch_reader.TheConstants.{MOST_EDITS};
ghost use Rattle.round_engine.specs.Prepared.{IsPreparedBy};
ghost use Rattle.round_engine.specs.Preparing.{first_bad, prepared_state};
ghost use Rattle.engine_runs.specs.Making.{bad_edit, committed, judged, IsRound};
ghost use Rattle.engine_runs.specs.State.{IsUnderWay};

use bolt_base::{Gate, Memory, VisitMeter};
use graph_text::{BadLine, BatchText};
use round_engine::{BatchRefusal, Engine, Prepared, Round};
use std::alloc::Global;
use std::thread::Threads;

// Prepares the edits of a batch, or tells the line of the first bad one.
fn prepare_edits<R: Threads + Sync, T: Gate + Sync>(
    engine: &mut Engine,
    rt: &R,
    alloc: Global,
    gate: &T,
    batch: &BatchText,
) -> Result<Result<Prepared, BadLine>, Memory>
    requires ready { IsUnderWay engine.old }
    requires paired { length batch.now.lines ≡ length batch.now.edits }
    requires small { length batch.now.edits ≤ MOST_EDITS }
    ensures state { IfOk result (λ r. OnOk r (engine.new
        ≡ prepared_state engine.old batch.now.edits)) }
    ensures edits { IfOk result (λ r. IfOk r (λ prepared. prepared.edits ≡ batch.now.edits)) }
    ensures prepared { IfOk result (λ r. IfOk r (IsPreparedBy engine.new)) }
    ensures fine { IfOk result (λ r. OnOk r (first_bad engine.old batch.now.edits ≡ None)) }
    ensures bad { IfOk result (λ r. IfErr r (λ bad.
        bad_edit engine.old batch.now ≡ Some bad)) }
    ensures unchanged { IfOk result (λ r. OnErr r (engine.new ≡ engine.old)) }
    ensures kept { OnErr result (engine.new ≡ engine.old) }
{
    let lines = batch.lines.as_slice();
    let edits = batch.edits.as_slice();
    let _accepted = engine.accepted();
    let _graph = engine.graph();
    let mut meter = VisitMeter::new();
    let prepared = engine.prepare(rt, alloc, edits, gate, &mut meter);
    let _visits = meter.finish();
    match prepared {
        Ok(prepared) => Ok(Ok(prepared)),
        Err(BatchRefusal::At { index, cause }) => Ok(Err(BadLine {
            line: lines[index as usize],
            cause,
        })),
        Err(BatchRefusal::Memory) => Err(Memory),
    }
}

/// Prepares a batch, or tells the line for which it is refused. A batch that is refused, and one
/// for which memory is wanting, leave the engine as it was.
pub fn prepare_batch<R: Threads + Sync, T: Gate + Sync>(
    engine: &mut Engine,
    rt: &R,
    alloc: Global,
    gate: &T,
    batch: &BatchText,
) -> Result<Result<Prepared, BadLine>, Memory>
    requires ready { IsUnderWay engine.old }
    requires paired { length batch.now.lines ≡ length batch.now.edits }
    requires small { length batch.now.edits ≤ MOST_EDITS }
    ensures state { IfOk result (λ r. OnOk r (engine.new
        ≡ prepared_state engine.old batch.now.edits)) }
    ensures edits { IfOk result (λ r. IfOk r (λ prepared. prepared.edits ≡ batch.now.edits)) }
    ensures prepared { IfOk result (λ r. IfOk r (IsPreparedBy engine.new)) }
    ensures fine { IfOk result (λ r. OnOk r (first_bad engine.old batch.now.edits ≡ None)) }
    ensures accepted { IfOk result (λ r. OnOk r (judged engine.old batch.now ≡ None)) }
    ensures refused { IfOk result (λ r. IfErr r (λ bad. judged engine.old batch.now ≡ Some bad)) }
    ensures unchanged { IfOk result (λ r. OnErr r (engine.new ≡ engine.old)) }
    ensures kept { OnErr result (engine.new ≡ engine.old) }
{
    match prepare_edits(engine, rt, alloc, gate, batch)? {
        Ok(prepared) => match batch.bad {
            None => Ok(Ok(prepared)),
            Some(bad) => {
                engine.abandon(prepared);
                Ok(Err(bad))
            }
        },
        Err(bad) => Ok(Err(bad)),
    }
}

/// Makes a batch, or tells the line for which it is refused. A batch that is refused, and one for
/// which memory is wanting, leave the engine as it was.
pub(crate) fn make_batch<R: Threads + Sync, T: Gate + Sync>(
    engine: &mut Engine,
    rt: &R,
    alloc: Global,
    gate: &T,
    batch: &BatchText,
) -> Result<Result<Round, BadLine>, Memory>
    requires ready { IsUnderWay engine.old }
    requires paired { length batch.now.lines ≡ length batch.now.edits }
    requires small { length batch.now.edits ≤ MOST_EDITS }
    requires few { engine.old.number + 1 < 2 ^ 64 }
    ensures made { IfOk result (λ r. IfOk r
        (IsRound engine.old (after engine.old.now batch.now.edits))) }
    ensures moved { IfOk result (λ r. OnOk r (engine.new
        ≡ committed engine.old batch.now.edits)) }
    ensures accepted { IfOk result (λ r. OnOk r (judged engine.old batch.now ≡ None)) }
    ensures refused { IfOk result (λ r. IfErr r (λ bad. judged engine.old batch.now ≡ Some bad)) }
    ensures unchanged { IfOk result (λ r. OnErr r (engine.new ≡ engine.old)) }
    ensures kept { OnErr result (engine.new ≡ engine.old) }
{
    match prepare_batch(engine, rt, alloc, gate, batch)? {
        Ok(prepared) => Ok(Ok(engine.commit(prepared))),
        Err(bad) => Ok(Err(bad)),
    }
}
