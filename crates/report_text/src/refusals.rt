// The lines that refuse words, graphs and batches.
ghost use Rattle.std.specs.Prelude.{◌≡◌, ◌++◌, OnOk, IfOk};
ghost use Rattle.report_text.specs.Refusals.{cause_word as cause_word_of, refused_at, refused_line};
ghost use Rattle.report_text.specs.Refusals.{graph_refused as graph_refused_line};
ghost use Rattle.report_text.specs.Refusals.{cells_refused as cells_refused_line};
ghost use Rattle.report_text.specs.Refusals.{words_refused as words_refused_line};

use crate::lines::push_labelled;
use bolt_base::{Bytes, LineCause, Memory};
use graph_text::BadLine;
use std::alloc::Global;

fn cause_word(cause: LineCause) -> &'static [u8]
    ensures { result.now ≡ cause_word_of cause }
{
    match cause {
        LineCause::Syntax => b"syntax",
        LineCause::Vertex => b"vertex",
        LineCause::Weight => b"weight",
        LineCause::Attribute => b"attribute",
        LineCause::Present => b"present",
        LineCause::Absent => b"absent",
        LineCause::Degree => b"degree",
        LineCause::Edges => b"edges",
        LineCause::Size => b"size",
        LineCause::Unfinished => b"unfinished",
    }
}

// Appends where and why something is refused, to the end of the line.
fn push_refused_at(out: &mut Bytes, bad: BadLine) -> Result<(), Memory>
    ensures { OnOk result (out.new ≡ out.old ++ refused_at bad) }
{
    push_labelled(out, b" refused line ", bad.line)?;
    out.extend_from_slice(b" ")?;
    out.extend_from_slice(cause_word(bad.cause))?;
    out.extend_from_slice(b"\n")?;
    Ok(())
}

/// Appends the line of a refused batch, whose number is counted from 1.
pub fn push_refused(out: &mut Bytes, number: u64, bad: BadLine) -> Result<(), Memory>
    ensures { OnOk result (out.new ≡ out.old ++ refused_line number bad) }
{
    push_labelled(out, b"batch ", number)?;
    push_refused_at(out, bad)?;
    Ok(())
}

/// The line that refuses a graph for its first bad line.
pub fn graph_refused(alloc: Global, bad: BadLine) -> Result<Bytes, Memory>
    ensures { IfOk result (λ text. text ≡ graph_refused_line bad) }
{
    let mut text = Bytes::from_slice(alloc, b"graph")?;
    push_refused_at(&mut text, bad)?;
    Ok(text)
}

/// The line that refuses a graph for which more cells are needed than the most that there may be.
pub fn cells_refused(alloc: Global, need: u64, limit: u64) -> Result<Bytes, Memory>
    ensures { IfOk result (λ text. text ≡ cells_refused_line need limit) }
{
    let mut text = Bytes::new(alloc);
    push_labelled(&mut text, b"graph refused cells ", need)?;
    push_labelled(&mut text, b" limit ", limit)?;
    text.extend_from_slice(b"\n")?;
    Ok(text)
}

/// The line that refuses the word at a place, counted from 1.
pub fn words_refused(alloc: Global, at: u32) -> Result<Bytes, Memory>
    ensures { IfOk result (λ text. text ≡ words_refused_line at) }
{
    let mut text = Bytes::new(alloc);
    push_labelled(&mut text, b"words refused at ", u64::from(at))?;
    text.extend_from_slice(b"\n")?;
    Ok(text)
}
