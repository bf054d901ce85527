// Vectors worked by hand.
ghost use Rattle.std.specs.Prelude.{◌≡◌, ◌≤◌, ◌≤ℤ◌, neg_ℤ, pos, [], ◌∷◌};
ghost use Rattle.vertex_expr.specs.Node.{tree_of};
ghost use Rattle.vertex_expr.specs.Samples.{mixed, rank};

mod samples;

use crate::depth::is_shallow;
use crate::env::Env;
use crate::evaluation::{eval, floor_div};
use crate::expr::{Expr, Operand};
use crate::mentions::{mentions_attr, mentions_outdeg, mentions_weight};
use crate::program::Program;
use bolt_base::Lanes;
use samples::{mixed_of, rank_program, share_of};
use std::test::Fail;

fn lane_of(x: i64) -> Lanes
    ensures lanes { result ≡ x ∷ [] }
{
    let mut lanes = Lanes::zeros(1);
    lanes.set(0, x);
    lanes
}

// What a source of this rank and out-degree gives.
fn rank_share(program: &Program, val: i64, outdeg: u32) -> i128
    requires rank { program.now ≡ rank }
    requires val_low { pos 0 ≤ℤ val }
    requires val_high { val ≤ℤ pos 1000000000000 }
    requires outdeg_low { 1 ≤ outdeg }
    requires outdeg_high { outdeg ≤ 1000000 }
{
    let env = Env {
        val: lane_of(val),
        agg: Lanes::zeros(1),
        old: Lanes::zeros(1),
        outdeg,
        weight: 1,
        attr: 0,
        id: 0,
    };
    eval(program.entries().contribute.at(0), program, &env)
}

// The rank of a vertex whose shares come to this sum.
fn rank_of(program: &Program, agg: i64) -> i128
    requires rank { program.now ≡ rank }
    requires low { pos 0 ≤ℤ agg }
    requires high { agg ≤ℤ pos 1000000000000000000 }
{
    let env = Env {
        val: Lanes::zeros(1),
        agg: lane_of(agg),
        old: Lanes::zeros(1),
        outdeg: 0,
        weight: 0,
        attr: 0,
        id: 0,
    };
    eval(program.entries().apply.at(0), program, &env)
}

// The mixed expression at id 11 and attr 5.
fn mixed_at(program: &Program, expr: &Expr, old: i64, weight: i64) -> i128
    requires rank { program.now ≡ rank }
    requires tree { tree_of expr.now ≡ mixed }
    requires old_least { neg_ℤ (pos 1000) ≤ℤ old }
    requires old_most { old ≤ℤ pos 1000 }
    requires weight_least { neg_ℤ (pos 1000) ≤ℤ weight }
    requires weight_most { weight ≤ℤ pos 1000 }
{
    let env = Env {
        val: Lanes::zeros(1),
        agg: Lanes::zeros(1),
        old: lane_of(old),
        outdeg: 0,
        weight,
        attr: 5,
        id: 11,
    };
    eval(expr, program, &env)
}

#[test]
fn quotients_round_down(rt: HostRuntime) {
    for (a, b, floor) in [
        (7i64, 2i64, 3i128),
        (-7, 2, -4),
        (7, -2, -4),
        (-7, -2, 3),
        (0, -5, 0),
        (-1, i64::MAX, -1),
        (i64::MIN, -1, 1 << 63),
        (i64::MIN, i64::MAX, -2),
        (i64::MAX, i64::MIN, -1),
        (i64::MIN, i64::MIN, 1),
        (i64::MIN, 3, -3_074_457_345_618_258_603),
    ] {
        assert!(rt; b != 0);
        assert_eq!(rt; floor_div(i128::from(a), i128::from(b)), floor, "{a} / {b}");
    }
}

#[test]
fn ranks(rt: HostRuntime) -> Result<(), Fail> {
    let program = rank_program(rt.alloc())?;
    assert_eq!(rt; rank_share(&program, 1_000_000, 3), 333_333);
    assert_eq!(rt; rank_share(&program, 0, 1), 0);
    assert_eq!(rt; rank_of(&program, 0), 150_000);
    assert_eq!(rt; rank_of(&program, 333_333), 433_333);
    assert_eq!(rt;
        rank_of(&program, 1_000_000_000_000_000_000),
        1_000_000_000_000
    );
    Ok(())
}

#[test]
fn mixed_reads(rt: HostRuntime) -> Result<(), Fail> {
    let program = rank_program(rt.alloc())?;
    let expr = mixed_of(rt.alloc())?;
    assert_eq!(rt; mixed_at(&program, &expr, 11, -6), 17);
    assert_eq!(rt; mixed_at(&program, &expr, 12, -6), 5);
    assert_eq!(rt; mixed_at(&program, &expr, -9, 1), -10);
    Ok(())
}

#[test]
fn mentions(rt: HostRuntime) -> Result<(), Fail> {
    let share = share_of(rt.alloc())?;
    assert!(rt; mentions_outdeg(&share));
    assert!(rt; !mentions_weight(&share));
    assert!(rt; !mentions_attr(&share));
    let mixed = mixed_of(rt.alloc())?;
    assert!(rt; !mentions_outdeg(&mixed));
    assert!(rt; mentions_weight(&mixed));
    assert!(rt; mentions_attr(&mixed));
    assert!(rt; is_shallow(&mixed, 3));
    assert!(rt; !is_shallow(&mixed, 2));
    Ok(())
}

#[test]
fn operands_give_their_expressions_back(rt: HostRuntime) -> Result<(), Fail> {
    let operand = Operand::new(rt.alloc(), Expr::Literal(-7))?;
    assert!(rt; matches!(operand.get(), Expr::Literal(-7)));
    assert!(rt; matches!(operand.into_expr(), Expr::Literal(-7)));
    Ok(())
}
