// Expressions.
ghost use Rattle.std.specs.Prelude.{IfOk, ◌≡◌};
ghost use Rattle.vertex_expr.specs.Node.{tree_of};

use bolt_base::Memory;
use std::alloc::Global;
use std::marker::Model;

/// Where an expression stands in a program, or which interval is meant.
#[derive(Clone, Copy, Debug, PartialEq, Eq)]
pub enum Part {
    /// A vertex's first value.
    Init,
    /// What an edge gives to the vertex that it leads to.
    Contribute,
    /// What a vertex's contributions come to. It has no expressions.
    Aggregate,
    /// A vertex's next value.
    Apply,
}

/// How the first two operands of `If` are compared.
#[derive(Clone, Copy, Debug, PartialEq, Eq)]
pub enum Compare {
    /// The first is below the second.
    Less,
    /// The first is at most the second.
    AtMost,
    /// Both are the same.
    Equal,
}

/// An expression over whole numbers. The u32 of `Param` is the place of a param, and that of `Val`,
/// `Agg` and `Old` is a lane.
#[cycle(expr)]
#[derive(Drop)]
pub enum Expr {
    Literal(i64),
    Param(u32),
    Val(u32),
    Outdeg,
    Weight,
    Attr,
    Id,
    Agg(u32),
    Old(u32),
    Plus(Operand, Operand),
    Minus(Operand, Operand),
    Times(Operand, Operand),
    /// The greatest whole number that is at most the quotient.
    Over(Operand, Operand),
    Min(Operand, Operand),
    Max(Operand, Operand),
    /// `Clamp(x, a, b)` is the greater of `a` and of the lesser of `x` and `b`.
    Clamp(Operand, Operand, Operand),
    /// The third operand where the first two compare so, else the fourth.
    If(Compare, Operand, Operand, Operand, Operand),
}

/// An operand, on the heap. Contracts see it as a tree. A bare `Box` would show them its address
/// too, so that two equal expressions would be different values, and no contract could say that a
/// text reads back as the expression it was made of.
#[cycle(expr)]
#[derive(Drop)]
pub struct Operand {
    expr: Box<Expr>,
}

impl Model for Operand {
    ghost use Rattle.vertex_expr.specs.Tree.{Tree, nodes};
    ghost use Rattle.vertex_expr.specs.TreeCode.{coded_tree};

    ghost Value = { Tree };

    ghost coded = { coded_tree };

    ghost use Rattle.vertex_expr.specs.Node.{tree_of};

    ghost view = { λ o. tree_of o.expr.value };

    ghost size = { nodes };
}

impl Operand {
    ghost use Rattle.vertex_expr.specs.Node.{tree_of};

    /// An expression as an operand.
    pub fn new(alloc: Global, expr: Expr) -> Result<Operand, Memory>
        ensures tree { IfOk result (λ operand. operand ≡ tree_of expr) }
    {
        Ok(Operand {
            expr: Box::new(alloc, expr)?,
        })
    }

    /// The expression.
    #[inline]
    pub fn get(&self) -> &Expr
        ensures tree { tree_of result.now ≡ self.now }
    {
        &self.expr
    }

    /// The expression, taken off the heap.
    pub fn into_expr(self) -> Expr
        ensures tree { tree_of result ≡ self }
    {
        let Operand { expr } = self;
        Box::into_inner(expr)
    }
}
