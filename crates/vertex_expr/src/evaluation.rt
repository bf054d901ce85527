// The value of an expression.
ghost use Rattle.std.specs.Prelude.{◌≡◌, ◌≢◌, ◌<◌, ◌^◌, ◌&&◌, pos, neg_ℤ, true, length};
ghost use Rattle.std.specs.Prelude.{int_le, int_lt, slice_index_or};
ghost use Rattle.vertex_expr.specs.Fit.{IsFit};
ghost use Rattle.vertex_expr.specs.Floor.{floor_div};
ghost use Rattle.vertex_expr.specs.Meaning.{ev, holds};
ghost use Rattle.vertex_expr.specs.Node.{tree_of};
ghost use Rattle.vertex_expr.specs.Safe.{IsEvaluable};
ghost use Rattle.vertex_expr.specs.Span.{IsSmall};
ghost use Rattle.vertex_expr.specs.Tree.{has_operands};
ghost use Rattle.vertex_expr.specs.Writable.{values_of};

use crate::env::Env;
use crate::expr::{Compare, Expr};
use crate::program::{NamedParam, Program};

/// What the expression means over whole numbers. It takes no memory.
#[inline]
pub fn eval(expr: &Expr, program: &Program, env: &Env) -> i128
    requires safe { IsEvaluable program.now env.now (tree_of expr.now) }
    ensures value { result ≡ ev (values_of program.now.params) env.now (tree_of expr.now) }
{
    value(expr, program.entries().params.as_slice(), env)
}

// What it means, for whichever expression. One without operands is read at once.
#[cycle(value)]
#[inline]
fn value(expr: &Expr, params: &[NamedParam], env: &Env) -> i128
    requires fit { IsFit (values_of params.now) env.now (tree_of expr.now) }
    ensures value { result ≡ ev (values_of params.now) env.now (tree_of expr.now) }
{
    match expr {
        Expr::Literal(x) => i128::from(*x),
        Expr::Param(k) => i128::from(param_at(params, *k)),
        Expr::Val(k) => i128::from(env.val.get(*k)),
        Expr::Outdeg => i128::from(env.outdeg),
        Expr::Weight => i128::from(env.weight),
        Expr::Attr => i128::from(env.attr),
        Expr::Id => i128::from(env.id),
        Expr::Agg(k) => i128::from(env.agg.get(*k)),
        Expr::Old(k) => i128::from(env.old.get(*k)),
        _ => composed(expr, params, env),
    }
}

// What an expression with operands means.
#[cycle(value)]
#[inline(never)]
fn composed(expr: &Expr, params: &[NamedParam], env: &Env) -> i128
    requires operands { has_operands (tree_of expr.now) ≡ true }
    requires fit { IsFit (values_of params.now) env.now (tree_of expr.now) }
    ensures value { result ≡ ev (values_of params.now) env.now (tree_of expr.now) }
{
    match expr {
        Expr::Plus(a, b) => value(a.get(), params, env) + value(b.get(), params, env),
        Expr::Minus(a, b) => value(a.get(), params, env) - value(b.get(), params, env),
        Expr::Times(a, b) => value(a.get(), params, env) * value(b.get(), params, env),
        Expr::Over(a, b) => floor_div(value(a.get(), params, env), value(b.get(), params, env)),
        Expr::Min(a, b) => value(a.get(), params, env).min(value(b.get(), params, env)),
        Expr::Max(a, b) => value(a.get(), params, env).max(value(b.get(), params, env)),
        Expr::Clamp(x, a, b) => {
            let low = value(a.get(), params, env);
            let high = value(b.get(), params, env);
            low.max(value(x.get(), params, env).min(high))
        }
        Expr::If(compare, a, b, x, y) => {
            if compare.holds(value(a.get(), params, env), value(b.get(), params, env)) {
                value(x.get(), params, env)
            } else {
                value(y.get(), params, env)
            }
        }
        _ => 0,
    }
}

#[inline]
fn param_at(params: &[NamedParam], k: u32) -> i64
    requires there { k < length (values_of params.now) }
    ensures value { result ≡ slice_index_or (values_of params.now) k (pos 0) }
{
    params[k as usize].value
}

/// The greatest whole number that is at most the quotient.
#[inline]
pub fn floor_div(a: i128, b: i128) -> i128
    requires nonzero { b ≢ pos 0 }
    requires left { IsSmall a }
    requires right { IsSmall b }
    ensures quotient { result ≡ floor_div a b }
{
    if 0 < b {
        floor_by(a, b)
    } else {
        floor_by(-a, -b)
    }
}

// The same by a number above 0. Where both have 64 bits, so has the division.
#[inline]
fn floor_by(a: i128, b: i128) -> i128
    requires positive { int_lt (pos 0) b ≡ true }
    requires left { IsSmall a }
    requires right { IsSmall b }
    ensures quotient { result ≡ floor_div a b }
{
    if is_short(a) && is_short(b) {
        i128::from((a as i64).div_euclid(b as i64))
    } else {
        a.div_euclid(b)
    }
}

// Whether it has 64 bits.
#[inline]
fn is_short(x: i128) -> bool
    ensures answer { result ≡ (int_le (neg_ℤ (pos (2 ^ 63))) x && int_lt x (pos (2 ^ 63))) }
{
    -(1 << 63) <= x && x < 1 << 63
}

impl Compare {
    /// Whether `a` stands in this relation to `b`.
    #[inline]
    pub fn holds(self, a: i128, b: i128) -> bool
        ensures answer { result ≡ holds self a b }
    {
        match self {
            Compare::Less => a < b,
            Compare::AtMost => a <= b,
            Compare::Equal => a == b,
        }
    }
}
