// How deep an expression is.
ghost use Rattle.std.specs.Prelude.{◌≡◌, nat_le};
ghost use Rattle.vertex_expr.specs.Node.{tree_of};
ghost use Rattle.vertex_expr.specs.Tree.{depth};

use crate::expr::Expr;

/// Whether it is at most so deep. A leaf has depth 1.
pub fn is_shallow(expr: &Expr, most: u32) -> bool
    ensures depth { result ≡ nat_le (depth (tree_of expr.now)) most }
{
    if most == 0 {
        return false;
    }
    let below = most - 1;
    match expr {
        Expr::Plus(a, b) | Expr::Minus(a, b) => is_shallow(a.get(), below)
            && is_shallow(b.get(), below),
        Expr::Times(a, b) | Expr::Over(a, b) => is_shallow(a.get(), below)
            && is_shallow(b.get(), below),
        Expr::Min(a, b) | Expr::Max(a, b) => is_shallow(a.get(), below)
            && is_shallow(b.get(), below),
        Expr::Clamp(x, a, b) => is_shallow(x.get(), below)
            && is_shallow(a.get(), below)
            && is_shallow(b.get(), below),
        Expr::If(_, a, b, x, y) => {
            is_shallow(a.get(), below)
                && is_shallow(b.get(), below)
                && is_shallow(x.get(), below)
                && is_shallow(y.get(), below)
        }
        _ => true,
    }
}
