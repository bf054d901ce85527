// The canonical text of a program.
ghost use Rattle.std.specs.Prelude.{◌≡◌, ◌≤◌, ◌++◌, ◌∷◌, [], length, map, All, IfOk, OnOk};
ghost use Rattle.std.specs.Prelude.{Ok};
ghost use Rattle.vertex_expr.specs.Node.{tree_of};
ghost use Rattle.vertex_expr.specs.Writable.{names_of, IsWritable};
ghost use Rattle.expr_text.specs.PrintingCode.{AreBelow};
ghost use Rattle.vertex_lang.specs.ProgramOf.{program_of};
ghost use Rattle.vertex_lang.specs.Canonical.{canonical_text, ended_lines, count_lines};
ghost use Rattle.vertex_lang.specs.Canonical.{weight_line, attr_line, once_lines, param_lines};
ghost use Rattle.vertex_lang.specs.Canonical.{lane_lines, tree_lines};

use crate::lines::{
    append_combine_line, append_lane_line, append_name_line, append_number_line, append_param_line,
    append_range_line, append_tree_line,
};
use bolt_base::{Bytes, Limits, Memory};
use std::alloc::Global;
use vertex_expr::{Expr, LaneRange, NamedParam, Program, ProgramEntries};

fn append_counts(out: &mut Bytes, limits: &Limits) -> Result<(), Memory>
    ensures { OnOk result (out.new ≡ out.old ++ ended_lines (count_lines limits.now)) }
{
    append_number_line(out, b"vertices", limits.vertices)?;
    append_number_line(out, b"degree", limits.degree)?;
    append_number_line(out, b"edges", limits.edges)?;
    Ok(())
}

fn append_weight(out: &mut Bytes, limits: &Limits) -> Result<(), Memory>
    ensures { OnOk result (out.new ≡ out.old ++ (weight_line limits.now ++ 10 ∷ [])) }
{
    append_range_line(out, b"weight", limits.weight_lo, limits.weight_hi)
}

fn append_attr(out: &mut Bytes, limits: &Limits) -> Result<(), Memory>
    ensures { OnOk result (out.new ≡ out.old ++ (attr_line limits.now ++ 10 ∷ [])) }
{
    append_range_line(out, b"attr", limits.attr_lo, limits.attr_hi)
}

/// The entries that stand once.
fn append_once(out: &mut Bytes, entries: &ProgramEntries) -> Result<(), Memory>
    ensures { OnOk result (out.new ≡ out.old ++ ended_lines (once_lines entries.now)) }
{
    append_name_line(out, entries.name.as_slice())?;
    append_counts(out, &entries.limits)?;
    append_weight(out, &entries.limits)?;
    append_attr(out, &entries.limits)?;
    append_number_line(out, b"rounds", entries.rounds)?;
    append_combine_line(out, &entries.combine)?;
    Ok(())
}

fn append_params(out: &mut Bytes, params: &[NamedParam]) -> Result<(), Memory>
    ensures { OnOk result (out.new ≡ out.old ++ ended_lines (param_lines params.now)) }
{
    for param in params {
        append_param_line(out, param)?;
    }
    Ok(())
}

fn append_ranges(out: &mut Bytes, ranges: &[LaneRange]) -> Result<(), Memory>
    requires { length ranges.now ≤ 8 }
    ensures { OnOk result (out.new ≡ out.old ++ ended_lines (lane_lines 0 ranges.now)) }
{
    for (lane, range) in ranges.iter().enumerate() {
        append_lane_line(out, lane as u32, *range)?;
    }
    Ok(())
}

fn append_trees(
    out: &mut Bytes,
    word: &[u8],
    params: &[NamedParam],
    exprs: &[Expr],
) -> Result<(), Memory>
    requires few { length exprs.now ≤ 8 }
    requires named { All (λ e. AreBelow (length params.now) (tree_of e)) exprs.now }
    ensures { OnOk result (out.new ≡ out.old
        ++ ended_lines (tree_lines word.now (names_of params.now) 0 (map tree_of exprs.now))) }
{
    for (lane, expr) in exprs.iter().enumerate() {
        append_tree_line(out, word, params, lane as u32, expr)?;
    }
    Ok(())
}

#[tactic(auto, unfolding(crate::specs::Canonical::canonical_text))]
fn print_entries(alloc: Global, entries: &ProgramEntries) -> Result<Bytes, Memory>
    requires { IsWritable entries.now }
    ensures { IfOk result (λ text. text ≡ canonical_text entries.now) }
{
    let params = entries.params.as_slice();
    let mut out = Bytes::new(alloc);
    append_once(&mut out, entries)?;
    append_params(&mut out, params)?;
    append_ranges(&mut out, entries.ranges.as_slice())?;
    append_trees(&mut out, b"init", params, entries.init.as_slice())?;
    append_trees(
        &mut out,
        b"contribute",
        params,
        entries.contribute.as_slice(),
    )?;
    append_trees(&mut out, b"apply", params, entries.apply.as_slice())?;
    Ok(out)
}

/// The canonical text of a program.
pub fn print(alloc: Global, program: &Program) -> Result<Bytes, Memory>
    ensures text { IfOk result (λ text. text ≡ canonical_text program.now) }
    ensures again { IfOk result (λ text. length text ≤ 65536 → program_of text ≡ Ok program.now) }
{
    let entries = program.entries();
    let text = print_entries(alloc, entries)?;
    Ok(text)
}
