// What is known in the middle of an expression.
use crate::stack::Stack;
use bolt_base::Memory;
use vertex_expr::{Compare, Operand};

/// Why a token can't stand where it stands.
#[derive(Clone, Copy, Debug, PartialEq, Eq)]
pub enum Cause {
    Syntax,
    Unknown,
    TooBig,
}

/// Why a step wasn't made.
#[derive(Debug, Drop)]
pub enum Fault {
    Memory,
    Refused(Cause),
}

impl From<Memory> for Fault {
    ghost use Rattle.std.specs.Prelude.{◌≡◌};
    ghost use Rattle.expr_text.specs.declared.reading.Fault.TheVariants.{Memory as NoMemory};

    ghost from_gives = { λ _ e. e ≡ NoMemory };

    fn from(_: Memory) -> Fault {
        Fault::Memory
    }
}

#[derive(Clone, Copy, Debug)]
pub enum Sign {
    Plus,
    Minus,
}

#[derive(Clone, Copy, Debug)]
pub enum Factor {
    Times,
    Over,
}

/// A name that an index follows.
#[derive(Clone, Copy, Debug)]
pub enum Lane {
    Val,
    Agg,
    Old,
}

#[derive(Clone, Copy, Debug)]
pub enum Call {
    Min,
    Max,
    Clamp,
    If,
}

/// What ends an operand inside parentheses.
#[derive(Clone, Copy, Debug)]
pub enum End {
    Comma,
    Compare(Compare),
    Close,
}

/// What an open parenthesis belongs to, with the operands that are read.
#[derive(Drop)]
pub enum Place {
    Whole,
    Group,
    MinFirst,
    MinSecond(Operand),
    MaxFirst,
    MaxSecond(Operand),
    ClampFirst,
    ClampSecond(Operand),
    ClampThird(Operand, Operand),
    IfFirst,
    IfSecond(Compare, Operand),
    IfThird(Compare, Operand, Operand),
    IfFourth(Compare, Operand, Operand, Operand),
}

/// An expression that is being read: the sum and the product that wait for their right operands.
#[derive(Drop)]
pub struct Frame {
    pub place: Place,
    pub sum: Option<(Sign, Operand)>,
    pub product: Option<(Factor, Operand)>,
}

/// What is due.
#[derive(Drop)]
pub enum Due {
    /// A literal, a name, a call or an expression in parentheses.
    Primary,
    /// The digits of a negative literal.
    Digits(Operand),
    OpenParen(Call),
    OpenBracket(Lane),
    Index(Lane),
    CloseBracket(Operand),
    /// What may follow an operand: the product so far.
    Operator(Operand),
}

/// The nodes so far, the innermost expression and those that it stands in, and what is due.
#[derive(Drop)]
pub struct Reading {
    pub nodes: u32,
    pub top: Frame,
    pub below: Stack<Frame>,
    pub due: Due,
}
