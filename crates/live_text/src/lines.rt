// The lines of entries and of replies.
ghost use Rattle.std.specs.Prelude.{◌≡◌, ◌++◌, IfOk, OnOk};
ghost use Rattle.std.specs.Option.{option_map};
ghost use Rattle.live_text.specs.Lines.{IsDecided, IsTotal, IfTotal, prefix_word, body_words};
ghost use Rattle.live_text.specs.Lines.{batch_line, entry_words, entry_line as entry_line_of};
ghost use Rattle.live_text.specs.Lines.{reply_words, reply_line as reply_line_of};
ghost use Rattle.live_text.specs.Lines.{last_line as last_line_of};

use board::{Body, Reply};
use bolt_base::{Bytes, Memory};
use graph_text::BadLine;
use report_text::{
    BatchNumbers, push_accepted, push_labelled, push_lane, push_lanes, push_refused,
};
use round_journal::Outcome;
use std::alloc::Global;

// Appends the ticket of an entry and its stream.
fn push_entry(out: &mut Bytes, ticket: u64, stream: u32) -> Result<(), Memory>
    ensures { OnOk result (out.new ≡ out.old ++ entry_words ticket stream) }
{
    push_labelled(out, b"entry ", ticket)?;
    push_labelled(out, b" stream ", u64::from(stream))?;
    out.extend_from_slice(b" ")?;
    Ok(())
}

// Appends what became of a batch.
fn push_batch(out: &mut Bytes, batch: u64, outcome: &Outcome) -> Result<(), Memory>
    requires { IsDecided outcome.now }
    ensures { OnOk result (out.new ≡ out.old ++ batch_line batch outcome.now) }
{
    match *outcome {
        Outcome::Accepted {
            round: _,
            added,
            removed,
            edges,
            kept,
            visits,
        } => push_accepted(
            out,
            BatchNumbers {
                number: batch,
                added,
                removed,
                edges,
                kept,
                visits,
            },
        ),
        Outcome::Refused { line, cause } => push_refused(out, batch, BadLine { line, cause }),
        Outcome::Memory => unreachable!(),
    }
}

/// The line of an entry: its ticket, its stream, the number of its batch in that stream, and what
/// became of it.
pub fn entry_line(
    alloc: Global,
    ticket: u64,
    stream: u32,
    batch: u64,
    outcome: &Outcome,
) -> Result<Bytes, Memory>
    requires { IsDecided outcome.now }
    ensures { IfOk result (λ text. text ≡ entry_line_of ticket stream batch outcome.now) }
{
    let mut text = Bytes::new(alloc);
    push_entry(&mut text, ticket, stream)?;
    push_batch(&mut text, batch, outcome)?;
    Ok(text)
}

// Appends what is replied.
fn push_body(out: &mut Bytes, body: &Body) -> Result<(), Memory>
    ensures { OnOk result (out.new ≡ out.old ++ body_words body.now) }
{
    match *body {
        Body::Value(value) => {
            out.extend_from_slice(b" value")?;
            push_lanes(out, value.as_slice())
        }
        Body::Total(total) => {
            out.extend_from_slice(b" total")?;
            push_lane(out, total)
        }
        Body::Count(count) => push_labelled(out, b" atleast ", u64::from(count)),
        Body::Prefix => Ok(()),
        Body::NoVertex { vertices } => push_labelled(out, b" novertex ", u64::from(vertices)),
    }
}

// Appends a reply, or that there is none.
fn push_reply(out: &mut Bytes, reply: Option<&Reply>) -> Result<(), Memory>
    ensures { OnOk result
        (out.new ≡ out.old ++ reply_words (option_map (λ r. r.now) reply.entry)) }
{
    match reply {
        None => out.extend_from_slice(b" unknown"),
        Some(reply) => {
            push_labelled(out, b" prefix ", reply.prefix)?;
            push_body(out, &reply.body)
        }
    }
}

/// The line of a desk's reply to a question; a question that is unknown has none. Desks are counted
/// from 0 and questions from 1.
pub fn reply_line(
    alloc: Global,
    desk: u32,
    number: u64,
    reply: Option<&Reply>,
) -> Result<Bytes, Memory>
    ensures { IfOk result
        (λ text. text ≡ reply_line_of desk number (option_map (λ r. r.now) reply.entry)) }
{
    let mut text = Bytes::new(alloc);
    push_labelled(&mut text, b"reply ", u64::from(desk))?;
    push_labelled(&mut text, b" ", number)?;
    push_reply(&mut text, reply)?;
    text.extend_from_slice(b"\n")?;
    Ok(text)
}

/// The line of a desk's last reply, which is a sum.
pub fn last_line(alloc: Global, desk: u32, reply: &Reply) -> Result<Bytes, Memory>
    requires { IsTotal reply.now.body }
    ensures { IfOk result
        (λ text. IfTotal (λ x. text ≡ last_line_of desk reply.now.prefix x) reply.now.body) }
{
    let mut text = Bytes::new(alloc);
    push_labelled(&mut text, b"last ", u64::from(desk))?;
    push_labelled(&mut text, b" prefix ", reply.prefix)?;
    push_body(&mut text, &reply.body)?;
    text.extend_from_slice(b"\n")?;
    Ok(text)
}
