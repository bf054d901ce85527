// A program's file is read and judged.
ghost use Rattle.std.specs.Prelude.{◌≡◌, ◌<◌, ◌^◌, ◌∷◌, [], take, IsOk, IfOk, IfErr, IfSome};
ghost use Rattle.std.specs.Prelude.{IsErrOf};
ghost use Rattle.bolt_io.specs.Told.{left};
ghost use Rattle.command_files.specs.Files.{content};
ghost use Rattle.command_files.specs.Reads.{TookTo, Reads};
ghost use Rattle.command_files.specs.Stops.{BlamesShelf, IsOfReading};
ghost use Rattle.program_files.specs.Judged.{judged};
ghost use Rattle.program_files.specs.ProgramFile.{program_far, program_file};

use crate::judging::judge;
use crate::refusal::ProgramRefusal;
use bolt_io::Shelf;
use command_files::{Stop, open};
use range_check::Accepted;
use std::alloc::Global;

/// The most bytes that are read of a program's file: one more than a text may have.
pub const MOST_READ: u64 = 65_537;

/// The bytes that a slot has left, as far as a program's file is read.
fn read_text<S: Shelf>(alloc: Global, shelf: &mut S, slot: u32) -> Result<Vec<u8>, Stop>
    requires { slot < S.opened shelf.old }
    ensures text { IfOk result (λ text. IfSome (S.told shelf.old)
        (λ t. text.items ≡ take MOST_READ (left t slot))) }
    ensures took { TookTo program_far (S.told shelf.old) (S.told shelf.new) slot }
    ensures opened { S.opened shelf.new ≡ S.opened shelf.old }
    ensures no_length { IsErrOf result Stop.TooLong → ⊥ }
    ensures cause { BlamesShelf result (S.faults shelf.old) (S.faults shelf.new) }
    ensures reading { IfErr result IsOfReading }
{
    let mut text = Vec::new(alloc);
    let mut buf = [0u8; 4096];
    'pieces: while (text.len() as u64) < MOST_READ {
        let room = (MOST_READ - text.len() as u64).min(4096) as usize;
        let piece = &mut buf[..room];
        let Ok(n) = shelf.read(slot, piece) else {
            return Err(Stop::ShelfFailed);
        };
        if n == 0 {
            return Ok(text);
        }
        let Ok(()) = text.extend_from_slice(&piece[..n]) else {
            return Err(Stop::Memory);
        };
    }
    Ok(text)
}

/// Reads and judges a program's file: the accepted program, or why its text is refused.
pub fn load_program<S: Shelf>(
    alloc: Global,
    shelf: &mut S,
    name: &str,
) -> Result<Result<Accepted, ProgramRefusal>, Stop>
    requires { S.opened shelf.old < 2 ^ 31 }
    ensures program { IfOk result (λ r. IfSome (S.told shelf.old)
        (λ t. judged (content t name.now) ≡ r)) }
    ensures reads { Reads (λ c. program_file name.now c ∷ []) IsOk 1
        (λ _. 1) (S.told shelf.old) (S.told shelf.new)
        (S.opened shelf.old) (S.opened shelf.new) result }
    ensures no_length { IsErrOf result Stop.TooLong → ⊥ }
    ensures cause { BlamesShelf result (S.faults shelf.old) (S.faults shelf.new) }
    ensures reading { IfErr result IsOfReading }
{
    let slot = open(shelf, name)?;
    let text = read_text(alloc, shelf, slot)?;
    Ok(judge(alloc, &text)?)
}
