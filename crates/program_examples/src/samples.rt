// The programs that the tests check.
ghost use Rattle.std.specs.Prelude.{◌≡◌, ◌≤◌, ◌≤ℤ◌, pos, length, IfOk};
ghost use Rattle.vertex_expr.specs.Node.{tree_of};
ghost use Rattle.vertex_expr.specs.Tree.{over};
ghost use Rattle.vertex_expr.specs.Writable.{IsTextTree};
ghost use Rattle.range_check.specs.Samples.{apply_scope, base, contribute_scope};

use bolt_base::{Bytes, Limits, Memory};
use std::alloc::Global;
use vertex_expr::{
    Combine, Expr, ExprList, LaneRange, Operand, ParamList, Program, ProgramEntries, RangeList,
};

pub fn literal(x: i64) -> Expr
    ensures literal { result ≡ Expr.Literal x }
{
    Expr::Literal(x)
}

pub fn quotient(alloc: Global, left: Expr, right: Expr) -> Result<Expr, Memory>
    ensures tree { IfOk result (λ e. tree_of e ≡ over (tree_of left) (tree_of right)) }
{
    Ok(Expr::Over(Operand::new(alloc, left)?, Operand::new(alloc, right)?))
}

fn base_name(alloc: Global) -> Result<Bytes, Memory>
    ensures name { IfOk result (λ n. n ≡ Rattle.std.specs.Prelude.codes "base") }
{
    let mut name = Bytes::new(alloc);
    name.push(b'b')?;
    name.push(b'a')?;
    name.push(b's')?;
    name.push(b'e')?;
    Ok(name)
}

pub fn base(
    alloc: Global,
    degree: u32,
    weight_lo: i64,
    most: i64,
    contribution: Expr,
    apply: Expr,
) -> Result<Program, Memory>
    requires degree_some { 1 ≤ degree }
    requires degree_most { degree ≤ 1000000 }
    requires weight { weight_lo ≤ℤ pos 10 }
    requires most { pos 0 ≤ℤ most }
    requires contribution { IsTextTree contribute_scope (tree_of contribution) }
    requires apply { IsTextTree apply_scope (tree_of apply) }
    ensures base { IfOk result (λ p. p
        ≡ base degree weight_lo most (tree_of contribution) (tree_of apply)) }
    ensures lanes { IfOk result (λ p. length p.ranges ≡ 1) }
{
    let mut ranges = RangeList::new(alloc);
    ranges.push(LaneRange { lo: 0, hi: most })?;
    let mut init = ExprList::new(alloc);
    init.push(Expr::Literal(0))?;
    let mut contribute = ExprList::new(alloc);
    contribute.push(contribution)?;
    let mut applies = ExprList::new(alloc);
    applies.push(apply)?;
    Ok(Program::new(ProgramEntries {
        name: base_name(alloc)?,
        limits: Limits {
            vertices: 1000,
            degree,
            edges: 1000,
            weight_lo,
            weight_hi: 10,
            attr_lo: 0,
            attr_hi: 100,
        },
        rounds: 1,
        combine: Combine::Sum,
        params: ParamList::new(alloc),
        ranges,
        init,
        contribute,
        apply: applies,
    }))
}
