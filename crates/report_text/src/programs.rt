// The lines that refuse programs, and those of an accepted one.
ghost use Rattle.std.specs.Prelude.{◌≡◌, ◌<◌, ◌++◌, length, codes, OnOk, IfOk};
ghost use Rattle.range_check.specs.Laws.{span_at};
ghost use Rattle.vertex_expr.specs.ProgramBounds.{spans_in};
ghost use Rattle.report_text.specs.Lines.{labelled};
ghost use Rattle.report_text.specs.Programs.{keyword_word as keyword_word_of, text_cause, placed};
ghost use Rattle.report_text.specs.Programs.{text_refused as text_refused_line, ends, range_cause};
ghost use Rattle.report_text.specs.Programs.{part_word as part_word_of, part_lines, program_line};
ghost use Rattle.report_text.specs.Programs.{span_line};
ghost use Rattle.report_text.specs.Programs.{range_refused as range_refused_line};
ghost use Rattle.report_text.specs.Programs.{combine_word as combine_word_of};
ghost use Rattle.report_text.specs.Programs.{check_text as check_text_of};

use crate::lines::push_labelled;
use crate::values::push_lane;
use bolt_base::{Bytes, Memory};
use range_check::{Accepted, RangeRefusal, bounds};
use std::alloc::Global;
use text_words::{Keyword, LangError};
use vertex_expr::{Combine, Part};

fn keyword_word(word: Keyword) -> &'static [u8]
    ensures { result.now ≡ keyword_word_of word }
{
    match word {
        Keyword::Program => b"program",
        Keyword::Vertices => b"vertices",
        Keyword::Degree => b"degree",
        Keyword::Edges => b"edges",
        Keyword::Weight => b"weight",
        Keyword::Attr => b"attr",
        Keyword::Rounds => b"rounds",
        Keyword::Combine => b"combine",
        Keyword::Param => b"param",
        Keyword::Lane => b"lane",
        Keyword::Init => b"init",
        Keyword::Contribute => b"contribute",
        Keyword::Apply => b"apply",
    }
}

// Appends a number behind its label, and the end of the line.
fn push_at(out: &mut Bytes, label: &[u8], n: u32) -> Result<(), Memory>
    ensures { OnOk result (out.new ≡ out.old ++ (labelled label.now n ++ codes "\n")) }
{
    push_labelled(out, label, u64::from(n))?;
    out.extend_from_slice(b"\n")?;
    Ok(())
}

// Appends what refuses a program's text, to the end of the line.
fn push_text_cause(out: &mut Bytes, error: LangError) -> Result<(), Memory>
    ensures { OnOk result (out.new ≡ out.old ++ text_cause error) }
{
    match error {
        LangError::Syntax { at } => push_at(out, b"syntax at ", at),
        LangError::Unknown { at } => push_at(out, b"unknown at ", at),
        LangError::Repeat { at } => push_at(out, b"repeat at ", at),
        LangError::Missing { word } => {
            out.extend_from_slice(b"missing ")?;
            out.extend_from_slice(keyword_word(word))?;
            out.extend_from_slice(b"\n")?;
            Ok(())
        }
        LangError::TooBig { at } => push_at(out, b"toobig at ", at),
        LangError::Memory => Ok(()),
    }
}

/// The line that refuses a program's text. Want of memory has none.
pub fn text_refused(alloc: Global, error: LangError) -> Result<Bytes, Memory>
    ensures { IfOk result (λ text. text ≡ text_refused_line error) }
{
    let mut text = Bytes::from_slice(alloc, b"program refused ")?;
    push_text_cause(&mut text, error)?;
    Ok(text)
}

fn part_word(part: Part) -> &'static [u8]
    ensures { result.now ≡ part_word_of part }
{
    match part {
        Part::Init => b"init",
        Part::Contribute => b"contribute",
        Part::Aggregate => b"aggregate",
        Part::Apply => b"apply",
    }
}

// Appends a word, a part, and the number of a node or of a lane.
fn push_placed(out: &mut Bytes, word: &[u8], part: Part, n: u32) -> Result<(), Memory>
    ensures { OnOk result (out.new ≡ out.old ++ placed word.now part n) }
{
    out.extend_from_slice(word)?;
    out.extend_from_slice(part_word(part))?;
    push_labelled(out, b" ", u64::from(n))?;
    Ok(())
}

// Appends both ends of an interval, to the end of the line.
fn push_ends(out: &mut Bytes, low: i128, high: i128) -> Result<(), Memory>
    ensures { OnOk result (out.new ≡ out.old ++ ends low high) }
{
    push_lane(out, low)?;
    push_lane(out, high)?;
    out.extend_from_slice(b"\n")?;
    Ok(())
}

// Appends which break refuses a program, to the end of the line.
fn push_range_cause(out: &mut Bytes, refusal: RangeRefusal) -> Result<(), Memory>
    ensures { OnOk result (out.new ≡ out.old ++ range_cause refusal) }
{
    match refusal {
        RangeRefusal::Zero { part, node } => {
            push_placed(out, b"zero ", part, node)?;
            out.extend_from_slice(b"\n")?;
            Ok(())
        }
        RangeRefusal::Wide { part, node } => {
            push_placed(out, b"wide ", part, node)?;
            out.extend_from_slice(b"\n")?;
            Ok(())
        }
        RangeRefusal::Sum { lane } => push_at(out, b"sum ", lane),
        RangeRefusal::Value { part, lane, lo, hi } => {
            push_placed(out, b"value ", part, lane)?;
            push_ends(out, lo, hi)?;
            Ok(())
        }
        RangeRefusal::Memory => Ok(()),
    }
}

/// The line that refuses a program for its first break. Want of memory has none.
pub fn range_refused(alloc: Global, refusal: RangeRefusal) -> Result<Bytes, Memory>
    ensures { IfOk result (λ text. text ≡ range_refused_line refusal) }
{
    let mut text = Bytes::from_slice(alloc, b"program refused ")?;
    push_range_cause(&mut text, refusal)?;
    Ok(text)
}

fn combine_word(combine: Combine) -> &'static [u8]
    ensures { result.now ≡ combine_word_of combine }
{
    match combine {
        Combine::Sum => b"sum",
        Combine::Min { .. } => b"min",
        Combine::Max { .. } => b"max",
    }
}

// Appends the line of a program.
fn push_program(out: &mut Bytes, accepted: &Accepted) -> Result<(), Memory>
    ensures { OnOk result (out.new ≡ out.old ++ program_line accepted.now) }
{
    let entries = accepted.program().entries();
    out.extend_from_slice(b"program ")?;
    out.extend_from_slice(entries.name.as_slice())?;
    push_labelled(out, b" lanes ", entries.ranges.len() as u64)?;
    push_labelled(out, b" rounds ", u64::from(entries.rounds))?;
    out.extend_from_slice(b" combine ")?;
    out.extend_from_slice(combine_word(entries.combine))?;
    out.extend_from_slice(b"\n")?;
    Ok(())
}

// Appends the interval of a part's expression for a lane.
fn push_span(out: &mut Bytes, accepted: &Accepted, part: Part, lane: u32) -> Result<(), Memory>
    requires { lane < length accepted.now.ranges }
    ensures { OnOk result (out.new
        ≡ out.old ++ span_line part lane (span_at (spans_in accepted.now part) lane)) }
{
    let (low, high) = bounds(accepted, part, lane);
    push_placed(out, b"", part, lane)?;
    push_ends(out, low, high)?;
    Ok(())
}

// Appends the intervals of a part.
fn push_part(out: &mut Bytes, accepted: &Accepted, part: Part) -> Result<(), Memory>
    ensures { OnOk result (out.new ≡ out.old ++ part_lines accepted.now part) }
{
    let lanes = accepted.program().entries().ranges.len() as u32;
    for lane in 0..lanes {
        push_span(out, accepted, part, lane)?;
    }
    Ok(())
}

/// The lines of an accepted program and the intervals of its parts.
pub fn check_text(alloc: Global, accepted: &Accepted) -> Result<Bytes, Memory>
    ensures { IfOk result (λ text. text ≡ check_text_of accepted.now) }
{
    let mut text = Bytes::new(alloc);
    push_program(&mut text, accepted)?;
    push_part(&mut text, accepted, Part::Init)?;
    push_part(&mut text, accepted, Part::Contribute)?;
    push_part(&mut text, accepted, Part::Aggregate)?;
    push_part(&mut text, accepted, Part::Apply)?;
    Ok(text)
}
