// The canonical text of an expression.
ghost use Rattle.std.specs.Prelude.{◌≡◌, ◌++◌, length, codes, decimal, OnOk};
ghost use Rattle.vertex_expr.specs.Node.{tree_of};
ghost use Rattle.vertex_expr.specs.Tree.{level as level_of};
ghost use Rattle.vertex_expr.specs.Writable.{names_of};
ghost use Rattle.expr_text.specs.Printing.{text_of, in_parens, is_looser, compare_text};
ghost use Rattle.expr_text.specs.PrintingCode.{level_seen, if_marked, AreBelow};

use bolt_base::{Bytes, Memory};
use vertex_expr::{Compare, Expr, NamedParam};

#[derive(Clone, Copy, Debug)]
enum Level {
    Sums,
    Products,
    Operands,
}

fn own_level(expr: &Expr) -> Level
    ensures { level_seen result ≡ level_of (tree_of expr.now) }
{
    match expr {
        Expr::Plus(_, _) | Expr::Minus(_, _) => Level::Sums,
        Expr::Times(_, _) | Expr::Over(_, _) => Level::Products,
        _ => Level::Operands,
    }
}

fn is_looser_than(a: Level, b: Level) -> bool
    ensures { result ≡ is_looser (level_seen a) (level_seen b) }
{
    match (a, b) {
        (Level::Sums, Level::Sums) => false,
        (Level::Sums, _) => true,
        (Level::Products, Level::Operands) => true,
        _ => false,
    }
}

fn append_lane(out: &mut Bytes, name: &[u8], k: u32) -> Result<(), Memory>
    ensures { OnOk result (out.new ≡ out.old ++ (name.now ++ decimal k ++ codes "]")) }
{
    out.extend_from_slice(name)?;
    out.push_decimal(u64::from(k))?;
    out.extend_from_slice(b"]")?;
    Ok(())
}

fn compare_bytes(compare: Compare) -> &'static [u8]
    ensures { result.now ≡ compare_text compare }
{
    match compare {
        Compare::Less => b" < ",
        Compare::AtMost => b" <= ",
        Compare::Equal => b" = ",
    }
}

fn append_paren(out: &mut Bytes, marked: bool, byte: &[u8]) -> Result<(), Memory>
    ensures { OnOk result (out.new ≡ out.old ++ if_marked marked byte.now) }
{
    if marked {
        out.extend_from_slice(byte)?;
    }
    Ok(())
}

/// An operand, in parentheses where it is marked.
#[cycle(print)]
fn append_marked(
    params: &[NamedParam],
    expr: &Expr,
    marked: bool,
    out: &mut Bytes,
) -> Result<(), Memory>
    requires { AreBelow (length params.now) (tree_of expr.now) }
    ensures { OnOk result (out.new ≡ out.old
        ++ in_parens marked (text_of (names_of params.now) (tree_of expr.now))) }
{
    append_paren(out, marked, b"(")?;
    append_expression(params, expr, out)?;
    append_paren(out, marked, b")")?;
    Ok(())
}

/// An operand of a call, behind what stands before it.
#[cycle(print)]
fn append_behind(
    before: &[u8],
    params: &[NamedParam],
    expr: &Expr,
    out: &mut Bytes,
) -> Result<(), Memory>
    requires { AreBelow (length params.now) (tree_of expr.now) }
    ensures { OnOk result (out.new ≡ out.old
        ++ (before.now ++ text_of (names_of params.now) (tree_of expr.now))) }
{
    out.extend_from_slice(before)?;
    append_expression(params, expr, out)?;
    Ok(())
}

/// Appends the canonical text.
#[cycle(print)]
pub fn append_expression(params: &[NamedParam], expr: &Expr, out: &mut Bytes) -> Result<(), Memory>
    requires { AreBelow (length params.now) (tree_of expr.now) }
    ensures { OnOk result (out.new ≡ out.old ++ text_of (names_of params.now) (tree_of expr.now)) }
{
    match expr {
        Expr::Literal(n) => out.push_signed(*n),
        Expr::Param(k) => out.extend_from_slice(params[*k as usize].name.as_slice()),
        Expr::Val(k) => append_lane(out, b"val[", *k),
        Expr::Outdeg => out.extend_from_slice(b"outdeg"),
        Expr::Weight => out.extend_from_slice(b"weight"),
        Expr::Attr => out.extend_from_slice(b"attr"),
        Expr::Id => out.extend_from_slice(b"id"),
        Expr::Agg(k) => append_lane(out, b"agg[", *k),
        Expr::Old(k) => append_lane(out, b"old[", *k),
        Expr::Plus(a, b) => {
            append_marked(
                params,
                a.get(),
                is_looser_than(own_level(a.get()), Level::Sums),
                out,
            )?;
            out.extend_from_slice(b" + ")?;
            append_marked(
                params,
                b.get(),
                !is_looser_than(Level::Sums, own_level(b.get())),
                out,
            )?;
            Ok(())
        }
        Expr::Minus(a, b) => {
            append_marked(
                params,
                a.get(),
                is_looser_than(own_level(a.get()), Level::Sums),
                out,
            )?;
            out.extend_from_slice(b" - ")?;
            append_marked(
                params,
                b.get(),
                !is_looser_than(Level::Sums, own_level(b.get())),
                out,
            )?;
            Ok(())
        }
        Expr::Times(a, b) => {
            append_marked(
                params,
                a.get(),
                is_looser_than(own_level(a.get()), Level::Products),
                out,
            )?;
            out.extend_from_slice(b" * ")?;
            append_marked(
                params,
                b.get(),
                !is_looser_than(Level::Products, own_level(b.get())),
                out,
            )?;
            Ok(())
        }
        Expr::Over(a, b) => {
            append_marked(
                params,
                a.get(),
                is_looser_than(own_level(a.get()), Level::Products),
                out,
            )?;
            out.extend_from_slice(b" / ")?;
            append_marked(
                params,
                b.get(),
                !is_looser_than(Level::Products, own_level(b.get())),
                out,
            )?;
            Ok(())
        }
        Expr::Min(a, b) => {
            append_behind(b"min(", params, a.get(), out)?;
            append_behind(b", ", params, b.get(), out)?;
            out.extend_from_slice(b")")?;
            Ok(())
        }
        Expr::Max(a, b) => {
            append_behind(b"max(", params, a.get(), out)?;
            append_behind(b", ", params, b.get(), out)?;
            out.extend_from_slice(b")")?;
            Ok(())
        }
        Expr::Clamp(x, a, b) => {
            append_behind(b"clamp(", params, x.get(), out)?;
            append_behind(b", ", params, a.get(), out)?;
            append_behind(b", ", params, b.get(), out)?;
            out.extend_from_slice(b")")?;
            Ok(())
        }
        Expr::If(c, a, b, x, y) => {
            append_behind(b"if(", params, a.get(), out)?;
            append_behind(compare_bytes(*c), params, b.get(), out)?;
            append_behind(b", ", params, x.get(), out)?;
            append_behind(b", ", params, y.get(), out)?;
            out.extend_from_slice(b")")?;
            Ok(())
        }
    }
}
