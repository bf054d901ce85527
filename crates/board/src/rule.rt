ghost use Rattle.board.specs.Rules.{Agrees, stranger, Looks, same, latter};

use crate::face::Face;
use crate::kinds::Mark;
use atomic_table::{Join, Split};
use crossbeam_utils::rule::{Outcome, Protocol};

/// The face shows its log, and each view that knows a board knows this one.
pub struct OnBoard;

impl Protocol<Face, Mark> for OnBoard {
    ghost holds = { Agrees };

    ghost first = { stranger };
}

pub struct Look;

impl Outcome<Face, Mark> for Look {
    ghost then = { Looks };
}

pub struct Tell;

impl Split<Mark> for Tell {
    ghost left = { same };

    ghost right = { same };
}

pub struct Learn;

impl Join<Mark> for Learn {
    ghost both = { latter };

    ghost spent = { stranger };
}
