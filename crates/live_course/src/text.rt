// What a live run writes.
ghost use Rattle.std.specs.Prelude.{◌≡◌, ◌==◌, ◌<◌, ◌^◌, if◌then◌else◌, length, IfOk};
ghost use Rattle.std.specs.List.{All};
ghost use Rattle.live_text.specs.Lines.{IsDecided, IsTotal};
ghost use Rattle.live_course.specs.Lines.{live_reply as live_reply_of};

use crate::entries::{accepted_count, push_entries, refused_count};
use crate::made::{DeskReplies, MadeEntry};
use crate::replies::{push_lasts, push_replies};
use batch_steps::Reply;
use bolt_base::{Bytes, Memory};
use report_text::{push_end, push_totals};
use std::alloc::Global;
use vertex_steps::ValueRow;

// The status of a run of which so many batches were refused.
fn status_of(refused: u64) -> u8
    ensures { result ≡ (if refused == 0 then 0 else 1) }
{
    if refused == 0 { 0 } else { 1 }
}

/// The text of a live run behind its opening lines, and its status: the entries that it made, what
/// its desks replied, the sums of its last answer, and its end.
pub fn live_reply<V: ValueRow>(
    alloc: Global,
    opening: &[u8],
    made: &[MadeEntry],
    desks: &[DeskReplies],
    row: &V,
    vertices: u32,
    width: u32,
) -> Result<Reply, Memory>
    requires decided { All (λ e. IsDecided e.outcome) made.now }
    requires few { length desks.now < 2 ^ 32 }
    requires totals { All (λ d. IsTotal d.last.body) desks.now }
    requires vertices { vertices ≡ length (V.values row.now) }
    requires width { All (λ xs. length xs ≡ width) (V.values row.now) }
    ensures { IfOk result (λ reply.
        reply ≡ live_reply_of opening.now made.now desks.now width (V.values row.now)) }
{
    let mut text = Bytes::from_slice(alloc, opening)?;
    push_entries(alloc, &mut text, made)?;
    push_replies(alloc, &mut text, desks)?;
    push_lasts(alloc, &mut text, desks)?;
    push_totals(&mut text, row, vertices, width)?;
    let refused = refused_count(made);
    push_end(&mut text, accepted_count(made), refused)?;
    let status = status_of(refused);
    Ok(Reply { text, status })
}
