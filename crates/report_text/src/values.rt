// The lines of values.
ghost use Rattle.std.specs.Prelude.{◌≡◌, ◌<◌, ◌++◌, length, All, OnOk};
ghost use Rattle.run_model.specs.Rows.{lane_total};
ghost use Rattle.report_text.specs.Values.{lane_word, lane_words, vertex_line};
ghost use Rattle.report_text.specs.Values.{value_lines, set_lines, total_line, total_lines};

use crate::lines::push_labelled;
use bolt_base::{AnswerChange, Bytes, Lanes, Memory};
use itoa::Buffer;
use vertex_steps::ValueRow;

/// Appends a number behind a space.
pub fn push_lane(out: &mut Bytes, x: i128) -> Result<(), Memory>
    ensures { OnOk result (out.new ≡ out.old ++ lane_word x) }
{
    let mut buffer = Buffer::new();
    out.extend_from_slice(b" ")?;
    out.extend_from_slice(buffer.format(x).as_bytes())?;
    Ok(())
}

/// Appends the lanes of a value.
pub fn push_lanes(out: &mut Bytes, value: &[i64]) -> Result<(), Memory>
    ensures { OnOk result (out.new ≡ out.old ++ lane_words value.now) }
{
    for x in value {
        push_lane(out, i128::from(*x))?;
    }
    Ok(())
}

// Appends a line of a word, a vertex and its value.
fn push_vertex(out: &mut Bytes, word: &[u8], v: u32, value: &Lanes) -> Result<(), Memory>
    ensures { OnOk result (out.new ≡ out.old ++ vertex_line word.now v value.now) }
{
    push_labelled(out, word, u64::from(v))?;
    push_lanes(out, value.as_slice())?;
    out.extend_from_slice(b"\n")?;
    Ok(())
}

/// Appends the value of each vertex.
pub fn push_values<V: ValueRow>(out: &mut Bytes, row: &V, vertices: u32) -> Result<(), Memory>
    requires vertices { vertices ≡ length (V.values row.now) }
    ensures { OnOk result (out.new ≡ out.old ++ value_lines (V.values row.now)) }
{
    for v in 0..vertices {
        push_vertex(out, b"value ", v, &row.value(v))?;
    }
    Ok(())
}

/// Appends the changes of an answer.
pub fn push_sets(out: &mut Bytes, changes: &[AnswerChange]) -> Result<(), Memory>
    ensures { OnOk result (out.new ≡ out.old ++ set_lines changes.now) }
{
    for change in changes {
        push_vertex(out, b"set ", change.vertex, &change.value)?;
    }
    Ok(())
}

// The sum of a lane.
#[tactic(auto, using(run_model::proofs::LaneSums::sum_grows, run_model::proofs::LaneSums::sum_fits))]
fn total<V: ValueRow>(row: &V, vertices: u32, lane: u32) -> i128
    requires vertices { vertices ≡ length (V.values row.now) }
    requires lane { All (λ xs. lane < length xs) (V.values row.now) }
    ensures { result ≡ lane_total lane (V.values row.now) }
{
    let mut total = 0;
    for v in 0..vertices {
        total += i128::from(row.value(v).get(lane));
    }
    total
}

// Appends the sum of a lane.
fn push_total(out: &mut Bytes, lane: u32, total: i128) -> Result<(), Memory>
    ensures { OnOk result (out.new ≡ out.old ++ total_line lane total) }
{
    push_labelled(out, b"total ", u64::from(lane))?;
    push_lane(out, total)?;
    out.extend_from_slice(b"\n")?;
    Ok(())
}

/// Appends the sum of each lane.
pub fn push_totals<V: ValueRow>(
    out: &mut Bytes,
    row: &V,
    vertices: u32,
    width: u32,
) -> Result<(), Memory>
    requires vertices { vertices ≡ length (V.values row.now) }
    requires width { All (λ xs. length xs ≡ width) (V.values row.now) }
    ensures { OnOk result (out.new ≡ out.old ++ total_lines width (V.values row.now)) }
{
    for lane in 0..width {
        push_total(out, lane, total(row, vertices, lane))?;
    }
    Ok(())
}
