// The program that is refined.
ghost use Rattle.std.specs.Prelude.{◌≡◌, IfOk};
ghost use Rattle.vertex_expr.specs.Node.{tree_of};
ghost use Rattle.vertex_expr.specs.Samples.{damped, rank, share};
ghost use Rattle.vertex_expr.specs.Writable.{IsCombination};

use bolt_base::{Bytes, Limits, Memory};
use std::alloc::Global;
use vertex_expr::{
    Combine, Expr, ExprList, LaneRange, Operand, ParamList, Program, ProgramEntries, RangeList,
};

fn literal(alloc: Global, x: i64) -> Result<Operand, Memory>
    ensures tree { IfOk result (λ o. o ≡ tree_of (Expr.Literal x)) }
{
    Operand::new(alloc, Expr::Literal(x))
}

// val[0] / outdeg
fn share_of(alloc: Global) -> Result<Expr, Memory>
    ensures tree { IfOk result (λ e. tree_of e ≡ share) }
{
    Ok(Expr::Over(
        Operand::new(alloc, Expr::Val(0))?,
        Operand::new(alloc, Expr::Outdeg)?,
    ))
}

// clamp(150000 + agg[0] * 17 / 20, 0, 1000000000000)
fn damped_of(alloc: Global) -> Result<Expr, Memory>
    ensures tree { IfOk result (λ e. tree_of e ≡ damped) }
{
    let product = Operand::new(
        alloc,
        Expr::Times(Operand::new(alloc, Expr::Agg(0))?, literal(alloc, 17)?),
    )?;
    let quotient = Operand::new(alloc, Expr::Over(product, literal(alloc, 20)?))?;
    let sum = Operand::new(alloc, Expr::Plus(literal(alloc, 150_000)?, quotient))?;
    Ok(Expr::Clamp(sum, literal(alloc, 0)?, literal(alloc, 1_000_000_000_000)?))
}

fn rank_name(alloc: Global) -> Result<Bytes, Memory>
    ensures name { IfOk result (λ n. n ≡ Rattle.std.specs.Prelude.codes "rank") }
{
    let mut name = Bytes::new(alloc);
    name.push(b'r')?;
    name.push(b'a')?;
    name.push(b'n')?;
    name.push(b'k')?;
    Ok(name)
}

// Ten rounds of ranks, or the same with another combination of the shares.
pub fn program_of(alloc: Global, combine: Combine) -> Result<Program, Memory>
    requires combination { IsCombination combine }
    ensures program { IfOk result (λ p. p ≡ record rank { combine = combine }) }
{
    let mut ranges = RangeList::new(alloc);
    ranges.push(LaneRange {
        lo: 0,
        hi: 1_000_000_000_000,
    })?;
    let mut init = ExprList::new(alloc);
    init.push(Expr::Literal(1_000_000))?;
    let mut contribute = ExprList::new(alloc);
    contribute.push(share_of(alloc)?)?;
    let mut apply = ExprList::new(alloc);
    apply.push(damped_of(alloc)?)?;
    Ok(Program::new(ProgramEntries {
        name: rank_name(alloc)?,
        limits: Limits {
            vertices: 1_000_000,
            degree: 1_000_000,
            edges: 8_000_000,
            weight_lo: -1_000_000,
            weight_hi: 1_000_000,
            attr_lo: -1_000_000,
            attr_hi: 1_000_000,
        },
        rounds: 10,
        combine,
        params: ParamList::new(alloc),
        ranges,
        init,
        contribute,
        apply,
    }))
}
