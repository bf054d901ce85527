// What an expression mentions.
ghost use Rattle.std.specs.Prelude.{◌≡◌};
ghost use Rattle.vertex_expr.specs.Leaf.{is_leaf};
ghost use Rattle.vertex_expr.specs.Mentions.{any_leaf, mentions_attr, mentions_outdeg};
ghost use Rattle.vertex_expr.specs.Mentions.{mentions_weight};
ghost use Rattle.vertex_expr.specs.Node.{tree_of};

use crate::expr::Expr;

#[derive(Clone, Copy)]
enum Leaf {
    Outdeg,
    Weight,
    Attr,
}

/// Whether `outdeg` stands somewhere in it.
pub fn mentions_outdeg(expr: &Expr) -> bool
    ensures answer { result ≡ mentions_outdeg (tree_of expr.now) }
{
    mentions(expr, Leaf::Outdeg)
}

/// Whether `weight` stands somewhere in it.
pub fn mentions_weight(expr: &Expr) -> bool
    ensures answer { result ≡ mentions_weight (tree_of expr.now) }
{
    mentions(expr, Leaf::Weight)
}

/// Whether `attr` stands somewhere in it.
pub fn mentions_attr(expr: &Expr) -> bool
    ensures answer { result ≡ mentions_attr (tree_of expr.now) }
{
    mentions(expr, Leaf::Attr)
}

fn mentions(expr: &Expr, leaf: Leaf) -> bool
    ensures answer { result ≡ any_leaf (is_leaf leaf) (tree_of expr.now) }
{
    match expr {
        Expr::Outdeg => matches!(leaf, Leaf::Outdeg),
        Expr::Weight => matches!(leaf, Leaf::Weight),
        Expr::Attr => matches!(leaf, Leaf::Attr),
        Expr::Plus(a, b) | Expr::Minus(a, b) => mentions(a.get(), leaf) || mentions(b.get(), leaf),
        Expr::Times(a, b) | Expr::Over(a, b) => mentions(a.get(), leaf) || mentions(b.get(), leaf),
        Expr::Min(a, b) | Expr::Max(a, b) => mentions(a.get(), leaf) || mentions(b.get(), leaf),
        Expr::Clamp(x, a, b) => mentions(x.get(), leaf)
            || mentions(a.get(), leaf)
            || mentions(b.get(), leaf),
        Expr::If(_, a, b, x, y) => {
            mentions(a.get(), leaf)
                || mentions(b.get(), leaf)
                || mentions(x.get(), leaf)
                || mentions(y.get(), leaf)
        }
        _ => false,
    }
}
