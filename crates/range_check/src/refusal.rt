// Why a program is refused.
use bolt_base::Memory;
use std::alloc::AllocError;
use thiserror::Error;
use vertex_expr::Part;

/// Why a program isn't accepted. Nodes are numbered from 0 over the lanes of their part, each after
/// its operands.
#[derive(Clone, Copy, Debug, PartialEq, Eq, Error)]
pub enum RangeRefusal {
    /// The divisor of this node may be 0.
    #[error("{part:?}: the divisor of node {node} may be 0")]
    Zero {
        part: Part,
        node: u32,
    },
    /// The value of this node may lie outside -2^120 to 2^120.
    #[error("{part:?}: node {node} may be past 2^120")]
    Wide {
        part: Part,
        node: u32,
    },
    /// A contribution of this lane, or what the contributions come to, may not fit an i64.
    #[error("the contributions of lane {lane} may not fit")]
    Sum {
        lane: u32,
    },
    /// The value of this lane may lie outside the lane's range.
    #[error("{part:?}: lane {lane} is from {lo} to {hi}")]
    Value {
        part: Part,
        lane: u32,
        lo: i128,
        hi: i128,
    },
    /// Want of memory.
    #[error("out of memory")]
    Memory,
}

impl From<AllocError> for RangeRefusal {
    ghost use Rattle.std.specs.Prelude.{◌≡◌};
    ghost use Rattle.range_check.specs.declared.refusal.RangeRefusal.TheVariants.{Memory};

    ghost from_gives = { λ _ e. e ≡ Memory };

    fn from(_: AllocError) -> RangeRefusal {
        RangeRefusal::Memory
    }
}

impl From<Memory> for RangeRefusal {
    ghost use Rattle.std.specs.Prelude.{◌≡◌};
    ghost use Rattle.range_check.specs.declared.refusal.RangeRefusal.TheVariants.{Memory};

    ghost from_gives = { λ _ e. e ≡ Memory };

    fn from(_: Memory) -> RangeRefusal {
        RangeRefusal::Memory
    }
}
