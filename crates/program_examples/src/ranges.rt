// Programs that the range check accepts or refuses.
use crate::samples::{base, literal, quotient};
use range_check::{RangeRefusal, bounds, check};
use std::test::Fail;
use vertex_expr::{Expr, Part};

#[test]
fn sums_of_a_hundred_fit(rt: HostRuntime) -> Result<(), Fail> {
    let alloc = rt.alloc();
    let share = 92_233_720_368_547_758;
    let program = base(alloc, 100, -10, i64::MAX, literal(share), Expr::Agg(0))?;
    let accepted = check(alloc, program)?;
    assert!(rt; bounds(&accepted, Part::Aggregate, 0) == (0, 9_223_372_036_854_775_800));
    let program = base(alloc, 101, -10, i64::MAX, literal(share), Expr::Agg(0))?;
    assert!(rt; check(alloc, program).err() == Some(RangeRefusal::Sum { lane: 0 }));
    Ok(())
}

#[test]
fn divisors_leave_out_zero(rt: HostRuntime) -> Result<(), Fail> {
    let alloc = rt.alloc();
    let ratio = quotient(alloc, Expr::Val(0), Expr::Weight)?;
    let program = base(alloc, 1, 0, 100, ratio, Expr::Agg(0))?;
    let zero = RangeRefusal::Zero {
        part: Part::Contribute,
        node: 2,
    };
    assert!(rt; check(alloc, program).err() == Some(zero));
    Ok(())
}

#[test]
fn values_stay_in_range(rt: HostRuntime) -> Result<(), Fail> {
    let alloc = rt.alloc();
    let program = base(alloc, 1, -10, 100, literal(1), literal(i64::MIN))?;
    let value = RangeRefusal::Value {
        part: Part::Apply,
        lane: 0,
        lo: i64::MIN.into(),
        hi: i64::MIN.into(),
    };
    assert!(rt; check(alloc, program).err() == Some(value));
    Ok(())
}
