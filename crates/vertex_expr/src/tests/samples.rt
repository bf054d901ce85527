// The program and the expressions that the tests evaluate.
ghost use Rattle.std.specs.Prelude.{◌≡◌, IfOk};
ghost use Rattle.vertex_expr.specs.Node.{tree_of};
ghost use Rattle.vertex_expr.specs.Samples.{damped, mixed, rank, share};

use crate::expr::{Compare, Expr, Operand};
use crate::program::{Combine, ExprList, LaneRange, ParamList, Program, ProgramEntries, RangeList};
use bolt_base::{Bytes, Limits, Memory};
use std::alloc::Global;

fn literal(alloc: Global, x: i64) -> Result<Operand, Memory>
    ensures tree { IfOk result (λ o. o ≡ tree_of (Expr.Literal x)) }
{
    Operand::new(alloc, Expr::Literal(x))
}

// val[0] / outdeg
pub fn share_of(alloc: Global) -> Result<Expr, Memory>
    ensures tree { IfOk result (λ e. tree_of e ≡ share) }
{
    Ok(Expr::Over(
        Operand::new(alloc, Expr::Val(0))?,
        Operand::new(alloc, Expr::Outdeg)?,
    ))
}

// clamp(150000 + agg[0] * 17 / 20, 0, 1000000000000)
fn damped_of(alloc: Global) -> Result<Expr, Memory>
    ensures tree { IfOk result (λ e. tree_of e ≡ damped) }
{
    let product = Operand::new(
        alloc,
        Expr::Times(Operand::new(alloc, Expr::Agg(0))?, literal(alloc, 17)?),
    )?;
    let quotient = Operand::new(alloc, Expr::Over(product, literal(alloc, 20)?))?;
    let sum = Operand::new(alloc, Expr::Plus(literal(alloc, 150_000)?, quotient))?;
    Ok(Expr::Clamp(sum, literal(alloc, 0)?, literal(alloc, 1_000_000_000_000)?))
}

fn rank_name(alloc: Global) -> Result<Bytes, Memory>
    ensures name { IfOk result (λ n. n ≡ Rattle.std.specs.Prelude.codes "rank") }
{
    let mut name = Bytes::new(alloc);
    name.push(b'r')?;
    name.push(b'a')?;
    name.push(b'n')?;
    name.push(b'k')?;
    Ok(name)
}

pub fn rank_program(alloc: Global) -> Result<Program, Memory>
    ensures rank { IfOk result (λ p. p ≡ rank) }
{
    let mut ranges = RangeList::new(alloc);
    ranges.push(LaneRange {
        lo: 0,
        hi: 1_000_000_000_000,
    })?;
    let mut init = ExprList::new(alloc);
    init.push(Expr::Literal(1_000_000))?;
    let mut contribute = ExprList::new(alloc);
    contribute.push(share_of(alloc)?)?;
    let mut apply = ExprList::new(alloc);
    apply.push(damped_of(alloc)?)?;
    Ok(Program::new(ProgramEntries {
        name: rank_name(alloc)?,
        limits: Limits {
            vertices: 1_000_000,
            degree: 1_000_000,
            edges: 8_000_000,
            weight_lo: -1_000_000,
            weight_hi: 1_000_000,
            attr_lo: -1_000_000,
            attr_hi: 1_000_000,
        },
        rounds: 10,
        combine: Combine::Sum,
        params: ParamList::new(alloc),
        ranges,
        init,
        contribute,
        apply,
    }))
}

// if(old[0] <= id, old[0] - weight, min(id, attr))
pub fn mixed_of(alloc: Global) -> Result<Expr, Memory>
    ensures tree { IfOk result (λ e. tree_of e ≡ mixed) }
{
    let old = Operand::new(alloc, Expr::Old(0))?;
    let minus = Operand::new(
        alloc,
        Expr::Minus(
            Operand::new(alloc, Expr::Old(0))?,
            Operand::new(alloc, Expr::Weight)?,
        ),
    )?;
    let min = Operand::new(
        alloc,
        Expr::Min(
            Operand::new(alloc, Expr::Id)?,
            Operand::new(alloc, Expr::Attr)?,
        ),
    )?;
    Ok(Expr::If(
        Compare::AtMost,
        old,
        Operand::new(alloc, Expr::Id)?,
        minus,
        min,
    ))
}
