// The lines of a canonical text.
ghost use Rattle.std.specs.Prelude.{◌≡◌, ◌++◌, ◌∷◌, [], decimal, length, OnOk};
ghost use Rattle.std.specs.Fmt.{signed_decimal};
ghost use Rattle.vertex_expr.specs.Node.{tree_of};
ghost use Rattle.vertex_expr.specs.Writable.{names_of};
ghost use Rattle.expr_text.specs.PrintingCode.{AreBelow};
ghost use Rattle.vertex_lang.specs.Canonical.{spaced, name_line, number_line, range_line};
ghost use Rattle.vertex_lang.specs.Canonical.{empty_line, combine_line, param_line, lane_line};
ghost use Rattle.vertex_lang.specs.Canonical.{tree_line};

use bolt_base::{Bytes, Memory};
use expr_text::append_expression;
use vertex_expr::{Combine, Expr, LaneRange, NamedParam};

fn append_spaced(out: &mut Bytes, word: &[u8]) -> Result<(), Memory>
    ensures { OnOk result (out.new ≡ out.old ++ spaced word.now) }
{
    out.extend_from_slice(b" ")?;
    out.extend_from_slice(word)?;
    Ok(())
}

fn append_spaced_number(out: &mut Bytes, number: u32) -> Result<(), Memory>
    ensures { OnOk result (out.new ≡ out.old ++ spaced (decimal number)) }
{
    out.extend_from_slice(b" ")?;
    out.push_decimal(u64::from(number))?;
    Ok(())
}

fn append_spaced_whole(out: &mut Bytes, number: i64) -> Result<(), Memory>
    ensures { OnOk result (out.new ≡ out.old ++ spaced (signed_decimal number)) }
{
    out.extend_from_slice(b" ")?;
    out.push_signed(number)?;
    Ok(())
}

pub fn append_number_line(out: &mut Bytes, word: &[u8], number: u32) -> Result<(), Memory>
    ensures { OnOk result (out.new ≡ out.old ++ (number_line word.now number ++ 10 ∷ [])) }
{
    out.extend_from_slice(word)?;
    append_spaced_number(out, number)?;
    out.extend_from_slice(b"\n")?;
    Ok(())
}

pub fn append_range_line(out: &mut Bytes, word: &[u8], lo: i64, hi: i64) -> Result<(), Memory>
    ensures { OnOk result (out.new ≡ out.old ++ (range_line word.now lo hi ++ 10 ∷ [])) }
{
    out.extend_from_slice(word)?;
    append_spaced_whole(out, lo)?;
    append_spaced_whole(out, hi)?;
    out.extend_from_slice(b"\n")?;
    Ok(())
}

fn append_empty(out: &mut Bytes, word: &[u8], empty: i64) -> Result<(), Memory>
    ensures { OnOk result (out.new ≡ out.old ++ empty_line word.now empty) }
{
    out.extend_from_slice(b"combine")?;
    append_spaced(out, word)?;
    append_spaced_whole(out, empty)?;
    Ok(())
}

fn append_combine(out: &mut Bytes, combine: &Combine) -> Result<(), Memory>
    ensures { OnOk result (out.new ≡ out.old ++ combine_line combine.now) }
{
    match combine {
        Combine::Max { empty } => append_empty(out, b"max", *empty),
        Combine::Min { empty } => append_empty(out, b"min", *empty),
        Combine::Sum => out.extend_from_slice(b"combine sum"),
    }
}

pub fn append_combine_line(out: &mut Bytes, combine: &Combine) -> Result<(), Memory>
    ensures { OnOk result (out.new ≡ out.old ++ (combine_line combine.now ++ 10 ∷ [])) }
{
    append_combine(out, combine)?;
    out.extend_from_slice(b"\n")?;
    Ok(())
}

pub fn append_name_line(out: &mut Bytes, name: &[u8]) -> Result<(), Memory>
    ensures { OnOk result (out.new ≡ out.old ++ (name_line name.now ++ 10 ∷ [])) }
{
    out.extend_from_slice(b"program")?;
    append_spaced(out, name)?;
    out.extend_from_slice(b"\n")?;
    Ok(())
}

pub fn append_param_line(out: &mut Bytes, param: &NamedParam) -> Result<(), Memory>
    ensures { OnOk result (out.new ≡ out.old ++ (param_line param.now ++ 10 ∷ [])) }
{
    out.extend_from_slice(b"param")?;
    append_spaced(out, param.name.as_slice())?;
    append_spaced_whole(out, param.value)?;
    out.extend_from_slice(b"\n")?;
    Ok(())
}

pub fn append_lane_line(out: &mut Bytes, lane: u32, range: LaneRange) -> Result<(), Memory>
    ensures { OnOk result (out.new ≡ out.old ++ (lane_line lane range ++ 10 ∷ [])) }
{
    out.extend_from_slice(b"lane")?;
    append_spaced_number(out, lane)?;
    append_spaced_whole(out, range.lo)?;
    append_spaced_whole(out, range.hi)?;
    out.extend_from_slice(b"\n")?;
    Ok(())
}

pub fn append_tree_line(
    out: &mut Bytes,
    word: &[u8],
    params: &[NamedParam],
    lane: u32,
    expr: &Expr,
) -> Result<(), Memory>
    requires { AreBelow (length params.now) (tree_of expr.now) }
    ensures { OnOk result (out.new ≡ out.old
        ++ (tree_line word.now (names_of params.now) lane (tree_of expr.now) ++ 10 ∷ [])) }
{
    out.extend_from_slice(word)?;
    append_spaced_number(out, lane)?;
    out.extend_from_slice(b" ")?;
    append_expression(params, expr, out)?;
    out.extend_from_slice(b"\n")?;
    Ok(())
}
