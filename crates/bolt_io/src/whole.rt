// A slot is read to its end, or as far as the limit.
ghost use Rattle.std.specs.Prelude.{◌≡◌, ◌<◌, ◌≤◌, ◌^◌, length, IfOk, IfErr, OnOk, IfSome};
ghost use Rattle.std.specs.Option.{option_map};
ghost use Rattle.bolt_io.specs.Told.{left, taken_from, Took, TookSome, IsWithinFile, IsTakenWhole};
ghost use Rattle.bolt_io.specs.Whole.{IfTurns, BlamesShelf, StopsAfter};
ghost use Rattle.bolt_io.specs.declared.whole.TheConstants.{MOST_BYTES};

use crate::fault::ShelfFault;
use crate::shelf::Shelf;
use std::alloc::Global;

/// The most bytes that are taken from a slot.
pub const MOST_BYTES: u64 = 1 << 40;

// The most bytes that a read asks for.
const PIECE_BYTES: u64 = 4096;

/// Why a slot wasn't read to its end.
#[derive(Clone, Copy, Debug, PartialEq, Eq)]
pub enum ReadFault {
    /// The shelf failed, and counted it.
    Shelf(ShelfFault),
    /// So many bytes were taken, the most that are, and another read is needed.
    Turns { taken: u64 },
    /// Memory was wanting.
    Memory,
}

/// All the bytes that a slot has left. After an error some of them were taken, and are lost.
/// `Turns` comes exactly where as many were taken as are at most, and another read is needed.
pub fn read_whole<S: Shelf>(alloc: Global, shelf: &mut S, slot: u32) -> Result<Vec<u8>, ReadFault>
    requires { slot < S.opened shelf.old }
    ensures all { IfOk result
        (λ bytes. IfSome (S.told shelf.old) (λ t. bytes.items ≡ left t slot)) }
    ensures took { IfOk result (λ bytes. Took (S.told shelf.old) (S.told shelf.new) slot
        bytes.items) }
    ensures short { IfOk result (λ bytes. length bytes.items < MOST_BYTES) }
    ensures to_end { OnOk result (IfSome (S.told shelf.old)
        (λ t. IsWithinFile t slot → IfSome (S.told shelf.new) (λ u. IsTakenWhole u slot))) }
    ensures most { IfErr result (IfTurns (λ taken. taken ≡ MOST_BYTES)) }
    ensures long { IfErr result (IfTurns
        (λ taken. IfSome (S.told shelf.old) (λ t. taken ≤ length (left t slot)))) }
    ensures long_taken { IfErr result (IfTurns
        (λ taken. S.told shelf.new ≡ option_map (taken_from slot taken) (S.told shelf.old))) }
    ensures stops { IfErr result (StopsAfter (S.told shelf.old) (S.told shelf.new) slot) }
    ensures part { TookSome (S.told shelf.old) (S.told shelf.new) slot }
    ensures opened { S.opened shelf.new ≡ S.opened shelf.old }
    ensures calm { OnOk result (S.faults shelf.new ≡ S.faults shelf.old) }
    ensures cause { IfErr result (BlamesShelf (S.faults shelf.old) (S.faults shelf.new)) }
    ensures later { S.faults shelf.old ≤ S.faults shelf.new }
{
    let mut bytes = Vec::new(alloc);
    'pieces: while (bytes.len() as u64) < MOST_BYTES {
        let taken = bytes.len();
        let room = (MOST_BYTES - taken as u64).min(PIECE_BYTES) as usize;
        let Ok(()) = bytes.resize(taken + room, 0) else {
            return Err(ReadFault::Memory);
        };
        let n = match shelf.read(slot, &mut bytes[taken..]) {
            Ok(n) => n,
            Err(fault) => return Err(ReadFault::Shelf(fault)),
        };
        bytes.truncate(taken + n);
        if n == 0 {
            return Ok(bytes);
        }
    }
    Err(ReadFault::Turns {
        taken: bytes.len() as u64,
    })
}
