// The lines of numbers.
ghost use Rattle.std.specs.Prelude.{◌≡◌, ◌++◌, OnOk};
ghost use Rattle.report_text.specs.Lines.{labelled, counts, edge_counts, open_line, accepted_line};
ghost use Rattle.report_text.specs.Lines.{end_line, once_line};

use bolt_base::{Bytes, Memory};

/// Appends a number behind its label.
pub fn push_labelled(out: &mut Bytes, label: &[u8], n: u64) -> Result<(), Memory>
    ensures { OnOk result (out.new ≡ out.old ++ labelled label.now n) }
{
    out.extend_from_slice(label)?;
    out.push_decimal(n)?;
    Ok(())
}

// Appends the entries that are kept, and the edges that were read, to the end of the line.
fn push_counts(out: &mut Bytes, kept: u64, visits: u64) -> Result<(), Memory>
    ensures { OnOk result (out.new ≡ out.old ++ counts kept visits) }
{
    push_labelled(out, b" kept ", kept)?;
    push_labelled(out, b" visits ", visits)?;
    out.extend_from_slice(b"\n")?;
    Ok(())
}

/// The numbers of an opened graph: its vertices, its edges, the entries that are kept, and the
/// edges that were read.
#[derive(Clone, Copy, Debug)]
pub struct OpenNumbers {
    pub vertices: u32,
    pub edges: u32,
    pub kept: u64,
    pub visits: u64,
}

/// Appends the line of an opened graph.
pub fn push_open(out: &mut Bytes, graph: OpenNumbers) -> Result<(), Memory>
    ensures { OnOk result (out.new
        ≡ out.old ++ open_line graph.vertices graph.edges graph.kept graph.visits) }
{
    push_labelled(out, b"open vertices ", u64::from(graph.vertices))?;
    push_labelled(out, b" edges ", u64::from(graph.edges))?;
    push_counts(out, graph.kept, graph.visits)?;
    Ok(())
}

/// The numbers of an accepted batch: its own, counted from 1, those of added and removed edges,
/// that of all edges, the entries that are kept, and the edges that were read.
#[derive(Clone, Copy, Debug)]
pub struct BatchNumbers {
    pub number: u64,
    pub added: u32,
    pub removed: u32,
    pub edges: u32,
    pub kept: u64,
    pub visits: u64,
}

// Appends how many edges a batch added and removed, and how many there are then.
fn push_edges(out: &mut Bytes, added: u32, removed: u32, edges: u32) -> Result<(), Memory>
    ensures { OnOk result (out.new ≡ out.old ++ edge_counts added removed edges) }
{
    push_labelled(out, b" accepted added ", u64::from(added))?;
    push_labelled(out, b" removed ", u64::from(removed))?;
    push_labelled(out, b" edges ", u64::from(edges))?;
    Ok(())
}

/// Appends the line of an accepted batch.
pub fn push_accepted(out: &mut Bytes, batch: BatchNumbers) -> Result<(), Memory>
    ensures { OnOk result (out.new ≡ out.old
        ++ accepted_line batch.number batch.added batch.removed batch.edges batch.kept
        batch.visits) }
{
    push_labelled(out, b"batch ", batch.number)?;
    push_edges(out, batch.added, batch.removed, batch.edges)?;
    push_counts(out, batch.kept, batch.visits)?;
    Ok(())
}

/// Appends the line of the numbers of accepted and of refused batches.
pub fn push_end(out: &mut Bytes, accepted: u64, refused: u64) -> Result<(), Memory>
    ensures { OnOk result (out.new ≡ out.old ++ end_line accepted refused) }
{
    push_labelled(out, b"end accepted ", accepted)?;
    push_labelled(out, b" refused ", refused)?;
    out.extend_from_slice(b"\n")?;
    Ok(())
}

/// Appends the line of a graph on which a program was run once: its vertices, its edges, and the
/// edges that were read.
pub fn push_once(out: &mut Bytes, vertices: u32, edges: u32, visits: u64) -> Result<(), Memory>
    ensures { OnOk result (out.new ≡ out.old ++ once_line vertices edges visits) }
{
    push_labelled(out, b"once vertices ", u64::from(vertices))?;
    push_labelled(out, b" edges ", u64::from(edges))?;
    push_labelled(out, b" visits ", visits)?;
    out.extend_from_slice(b"\n")?;
    Ok(())
}
