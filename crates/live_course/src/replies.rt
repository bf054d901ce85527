// The lines of replies.
ghost use Rattle.std.specs.Prelude.{◌≡◌, ◌<◌, ◌^◌, ◌++◌, length, OnOk};
ghost use Rattle.std.specs.List.{All};
ghost use Rattle.live_text.specs.Lines.{IsTotal};
ghost use Rattle.live_course.specs.Lines.{desk_lines, last_lines, reply_lines};

use crate::made::DeskReplies;
use board::Reply;
use bolt_base::{Bytes, Memory};
use live_text::{last_line, reply_line};
use std::alloc::Global;

// Appends a line for each question of a desk.
fn push_desk(
    alloc: Global,
    out: &mut Bytes,
    desk: u32,
    replies: &[Option<Reply>],
) -> Result<(), Memory>
    ensures { OnOk result (out.new ≡ out.old ++ desk_lines desk 1 replies.now) }
{
    for (index, reply) in replies.iter().enumerate() {
        let line = reply_line(alloc, desk, index as u64 + 1, reply.as_ref())?;
        out.extend_from_slice(line.as_slice())?;
    }
    Ok(())
}

/// Appends a line for each question of each desk.
pub(crate) fn push_replies(
    alloc: Global,
    out: &mut Bytes,
    desks: &[DeskReplies],
) -> Result<(), Memory>
    requires { length desks.now < 2 ^ 32 }
    ensures { OnOk result (out.new ≡ out.old ++ reply_lines 0 desks.now) }
{
    for (index, desk) in desks.iter().enumerate() {
        push_desk(alloc, out, index as u32, desk.replies.as_slice())?;
    }
    Ok(())
}

/// Appends the line of each desk's last reply.
pub(crate) fn push_lasts(
    alloc: Global,
    out: &mut Bytes,
    desks: &[DeskReplies],
) -> Result<(), Memory>
    requires few { length desks.now < 2 ^ 32 }
    requires totals { All (λ d. IsTotal d.last.body) desks.now }
    ensures { OnOk result (out.new ≡ out.old ++ last_lines 0 desks.now) }
{
    for (index, desk) in desks.iter().enumerate() {
        let line = last_line(alloc, index as u32, &desk.last)?;
        out.extend_from_slice(line.as_slice())?;
    }
    Ok(())
}
