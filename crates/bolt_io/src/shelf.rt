// A shelf of files that are read in pieces.
ghost use Rattle.std.specs.Prelude.{◌≡◌, ℕ, ◌+◌, ◌<◌, ◌≤◌, ◌^◌, length, Option, IfOk, OnOk, OnErr};
ghost use Rattle.std.specs.Prelude.{IfSome, IsErrOf};
ghost use Rattle.std.specs.Option.{option_map};
ghost use Rattle.bolt_io.specs.Faults.{Rose};
ghost use Rattle.bolt_io.specs.Told.{Told, opened_at, taken_from, left, GivesNext, TellsSlots};

use crate::fault::{OpenFault, ShelfFault};

/// Files that are opened by name into slots, and read from their first byte on. A shelf may tell
/// what its files hold.
pub trait Shelf {
    /// How often the shelf has failed, as far as a `u64` counts.
    ghost faults: { Self → ℕ };

    /// How many slots were opened.
    ghost opened: { Self → ℕ };

    /// The files and the slots, where the shelf tells them.
    ghost told: { Self → Option Told };

    /// Opens the next slot, counted from 0, at the first byte of a file.
    fn open(&mut self, name: &str) -> Result<u32, OpenFault>
        requires { opened self.old < 2 ^ 31 }
        ensures slot { IfOk result (λ slot. slot ≡ opened self.old) }
        ensures one_more { OnOk result (opened self.new ≡ opened self.old + 1) }
        ensures told { OnOk result (told self.new
            ≡ option_map (opened_at name.now) (told self.old)) }
        ensures none_more { OnErr result (opened self.new ≡ opened self.old) }
        ensures untouched { OnErr result (told self.new ≡ told self.old) }
        ensures failed { IsErrOf result OpenFault.Failed
            → Rose (faults self.old) (faults self.new) }
        ensures memory { IsErrOf result OpenFault.Memory → faults self.new ≡ faults self.old }
        ensures calm { OnOk result (faults self.new ≡ faults self.old) }
        ensures later { faults self.old ≤ faults self.new };

    /// Takes the next bytes of a slot into the first places of `buf`: none exactly where the slot's
    /// end was reached.
    fn read(&mut self, slot: u32, buf: &mut [u8]) -> Result<usize, ShelfFault>
        requires slot { slot < opened self.old }
        requires room { 0 < length buf.old }
        ensures within { IfOk result (λ n. n ≤ length buf.old) }
        ensures told { IfOk result (λ n. told self.new
            ≡ option_map (taken_from slot n) (told self.old)) }
        ensures bytes { IfOk result (λ n. IfSome (told self.old)
            (λ t. GivesNext (left t slot) n buf.new)) }
        ensures untouched { OnErr result (told self.new ≡ told self.old) }
        ensures opened { opened self.new ≡ opened self.old }
        ensures failed { OnErr result (Rose (faults self.old) (faults self.new)) }
        ensures calm { OnOk result (faults self.new ≡ faults self.old) }
        ensures later { faults self.old ≤ faults self.new };

    /// It tells as many slots as were opened.
    ghost tells_slots: { (s : Self) → TellsSlots (told s) (opened s) };

    /// The count is a `u64`.
    ghost faults_fit: { (s : Self) → faults s < 2 ^ 64 };
}
