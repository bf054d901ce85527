// The nodes of an expression, one after the other.
ghost use Rattle.std.specs.Prelude.{◌≡◌, ◌≤◌, ◌<◌, ◌+◌};
ghost use Rattle.std.specs.Option.{option_or};
ghost use Rattle.vertex_expr.specs.Node.{tree_of};
ghost use Rattle.vertex_expr.specs.Tree.{nodes};
ghost use Rattle.range_check.specs.Walk.{IsKnownIn, IsScope, box_in, first_in};
ghost use Rattle.range_check.specs.Walk.{node_result, two_result, walk_result};

use crate::interval::Interval;
use crate::refusal::RangeRefusal;
use crate::scope::{Scope, agg, attr, id, outdeg, param, range, weight};
use vertex_expr::{Expr, Operand, Part};

/// The interval of an expression, and the number of the node after its last.
#[derive(Debug, Drop)]
pub struct Walked {
    pub span: Interval,
    pub next: u32,
}

/// The intervals of two expressions, the second numbered behind the first, and the number of the
/// node after them.
#[derive(Debug, Drop)]
pub struct WalkedTwo {
    pub left: Interval,
    pub right: Interval,
    pub next: u32,
}

/// The interval of an expression, or the first break of its nodes, which are numbered from `first`
/// on.
#[cycle(walk)]
pub fn walk(expr: &Expr, scope: &Scope, first: u32) -> Result<Walked, RangeRefusal>
    requires scope { IsScope scope.now.entries.now scope.now.part scope.now.aggregates.now }
    requires known { IsKnownIn scope.now.entries.now scope.now.part (tree_of expr.now) }
    requires few { first + nodes (tree_of expr.now) ≤ 2048 }
    ensures walked { let p = scope.now.entries.now in
        let part = scope.now.part in
        let t = tree_of expr.now in
        result ≡ walk_result (first_in p part first t) (box_in p part t) (first + nodes t) }
{
    let part = scope.part;
    match expr {
        Expr::Literal(x) => node(Interval::only(*x), part, first),
        Expr::Param(k) => node(param(scope.entries, *k), part, first),
        Expr::Val(k) => node(range(scope.entries, *k), part, first),
        Expr::Outdeg => node(outdeg(scope.entries), part, first),
        Expr::Weight => node(weight(scope.entries), part, first),
        Expr::Attr => node(attr(scope.entries), part, first),
        Expr::Id => node(id(scope.entries), part, first),
        Expr::Agg(k) => node(agg(scope.aggregates, *k), part, first),
        Expr::Old(k) => node(range(scope.entries, *k), part, first),
        Expr::Plus(a, b) => {
            let two = walk_two(a, b, scope, first)?;
            node(two.left.plus(two.right), part, two.next)
        }
        Expr::Minus(a, b) => {
            let two = walk_two(a, b, scope, first)?;
            node(two.left.minus(two.right), part, two.next)
        }
        Expr::Times(a, b) => {
            let two = walk_two(a, b, scope, first)?;
            node(two.left.times(two.right), part, two.next)
        }
        Expr::Over(a, b) => {
            let two = walk_two(a, b, scope, first)?;
            if two.right.holds_zero() {
                Err(RangeRefusal::Zero {
                    part,
                    node: two.next,
                })
            } else {
                node(two.left.over(two.right), part, two.next)
            }
        }
        Expr::Min(a, b) => {
            let two = walk_two(a, b, scope, first)?;
            node(two.left.least(two.right), part, two.next)
        }
        Expr::Max(a, b) => {
            let two = walk_two(a, b, scope, first)?;
            node(two.left.greatest(two.right), part, two.next)
        }
        Expr::Clamp(x, a, b) => {
            let two = walk_two(x, a, scope, first)?;
            let last = walk(b.get(), scope, two.next)?;
            node(two.left.clamp(two.right, last.span), part, last.next)
        }
        Expr::If(_, a, b, x, y) => {
            let compared = walk_two(a, b, scope, first)?;
            let two = walk_two(x, y, scope, compared.next)?;
            node(two.left.joined(two.right), part, two.next)
        }
    }
}

// The same for two expressions, one after the other.
#[cycle(walk)]
fn walk_two(a: &Operand, b: &Operand, scope: &Scope, first: u32) -> Result<WalkedTwo, RangeRefusal>
    requires scope { IsScope scope.now.entries.now scope.now.part scope.now.aggregates.now }
    requires known_a { IsKnownIn scope.now.entries.now scope.now.part a.now }
    requires known_b { IsKnownIn scope.now.entries.now scope.now.part b.now }
    requires few { first + nodes a.now + nodes b.now ≤ 2048 }
    ensures walked { let p = scope.now.entries.now in
        let part = scope.now.part in
        let left = first_in p part first a.now in
        let right = first_in p part (first + nodes a.now) b.now in
        let next = first + nodes a.now + nodes b.now in
        result ≡ two_result (option_or left right)
        (box_in p part a.now) (box_in p part b.now) next }
{
    let left = walk(a.get(), scope, first)?;
    let right = walk(b.get(), scope, left.next)?;
    Ok(WalkedTwo {
        left: left.span,
        right: right.span,
        next: right.next,
    })
}

// The node, if its interval is narrow enough.
fn node(span: Option<Interval>, part: Part, node: u32) -> Result<Walked, RangeRefusal>
    requires few { node < 2048 }
    ensures node { result ≡ node_result part node span }
{
    match span {
        Some(span) => Ok(Walked {
            span,
            next: node + 1,
        }),
        None => Err(RangeRefusal::Wide { part, node }),
    }
}
