// A shelf in memory that never fails.
ghost use Rattle.std.specs.Prelude.{◌≡◌, ◌<◌, ◌≤◌, ◌^◌, [], min, length, drop, OnOk, OnErr, IfOk};
ghost use Rattle.std.specs.Prelude.{IsOk, IsOkUnless};
ghost use Rattle.bolt_io.specs.Told.{bytes_of, has_file, left, GivesNext};
ghost use Rattle.bolt_io.specs.Fakes.{with_file, with_slot, with_taken, read_length};

use crate::fault::{OpenFault, ShelfFault};
use crate::files::{File, Slot};
use crate::shelf::Shelf;
use bolt_base::{Bytes, Memory};
use std::alloc::Global;
use std::marker::Model;

/// Files in memory that are read without faults. An absent name opens as an empty file.
#[derive(Drop)]
pub struct CalmShelf {
    alloc: Global,
    files: Vec<File>,
    slots: Vec<Slot>,
    piece: usize,
}

impl Model for CalmShelf {
    ghost use Rattle.std.specs.Prelude.{◌≤◌};
    ghost use Rattle.bolt_io.specs.Fakes.{ShelfState};

    ghost Value = { ShelfState };

    ghost view = { λ s. record
        { told = record { files = s.files.items; slots = s.slots.items }; piece = s.piece } };

    ghost invariant = { λ s. 1 ≤ s.piece };
}

impl CalmShelf {
    /// No files, and reads that take `piece` bytes at most.
    pub fn new(alloc: Global, piece: usize) -> Self
        requires { 1 ≤ piece }
        ensures { result ≡ record { told = record { files = []; slots = [] }; piece = piece } }
    {
        CalmShelf {
            alloc,
            files: Vec::new(alloc),
            slots: Vec::new(alloc),
            piece,
        }
    }

    /// Gives a name these bytes. The shelf is unchanged after `Memory`.
    pub fn put_file(&mut self, name: &str, bytes: &[u8]) -> Result<(), Memory>
        requires { self.old.told.slots ≡ [] }
        ensures ok { OnOk result (self.new ≡ with_file name.now bytes.now self.old) }
        ensures err { OnErr result (self.new ≡ self.old) }
    {
        let file = File {
            name: Bytes::from_slice(self.alloc, name.as_bytes())?,
            bytes: Bytes::from_slice(self.alloc, bytes)?,
        };
        self.files.insert(0, file)?;
        Ok(())
    }

    /// Whether there is a file of that name.
    pub(crate) fn has(&self, name: &str) -> bool
        ensures { result ≡ has_file self.now.told.files name.now }
    {
        let name = name.as_bytes();
        for file in &self.files {
            if file.name.as_slice() == name {
                return true;
            }
        }
        false
    }
}

impl Shelf for CalmShelf {
    ghost use Rattle.std.specs.Prelude.{Some, length, refl};
    ghost use Rattle.bolt_io.specs.Faults.{none_fits};

    ghost faults = { λ s. 0 };

    ghost opened = { λ s. length s.told.slots };

    ghost told = { λ s. Some s.told };

    ghost tells_slots = { λ s. refl };

    ghost faults_fit = { λ s. none_fits };

    fn open(&mut self, name: &str) -> Result<u32, OpenFault>
        requires { length self.old.told.slots < 2 ^ 31 }
        ensures calm { IsOkUnless result OpenFault.Memory }
        ensures slot { IfOk result (λ slot. slot ≡ length self.old.told.slots) }
        ensures ok { OnOk result (self.new ≡ with_slot name.now self.old) }
        ensures err { OnErr result (self.new ≡ self.old) }
    {
        let slot = self.slots.len() as u32;
        let Ok(name) = Bytes::from_slice(self.alloc, name.as_bytes()) else {
            return Err(OpenFault::Memory);
        };
        match self.slots.push(Slot { name, taken: 0 }) {
            Ok(()) => Ok(slot),
            Err(_) => Err(OpenFault::Memory),
        }
    }

    fn read(&mut self, slot: u32, buf: &mut [u8]) -> Result<usize, ShelfFault>
        requires slot { slot < length self.old.told.slots }
        requires room { 0 < length buf.old }
        ensures calm { IsOk result }
        ensures longest { IfOk result (λ n. n ≡ read_length self.old slot (length buf.old)) }
        ensures bytes { IfOk result (λ n. GivesNext (left self.old.told slot) n buf.new) }
        ensures taken { IfOk result (λ n. self.new ≡ with_taken slot n self.old) }
    {
        let slot = &mut self.slots[slot as usize];
        let bytes = find_bytes(&self.files, slot.name.as_slice());
        let n = give(rest_of(bytes, slot.taken), self.piece, buf);
        slot.taken += n as u64;
        Ok(n)
    }
}

// The bytes of the file of that name.
fn find_bytes<'a>(files: &'a [File], name: &[u8]) -> &'a [u8]
    ensures { result.now ≡ bytes_of files.now name.now }
{
    for file in files {
        if file.name.as_slice() == name {
            return file.bytes.as_slice();
        }
    }
    &[]
}

// What is left after the bytes that were taken.
fn rest_of(bytes: &[u8], taken: u64) -> &[u8]
    ensures { result.now ≡ drop taken bytes.now }
{
    if taken < bytes.len() as u64 {
        &bytes[taken as usize..]
    } else {
        &[]
    }
}

// Copies the next bytes, `piece` at most, and answers how many.
fn give(rest: &[u8], piece: usize, buf: &mut [u8]) -> usize
    requires some { 1 ≤ piece }
    requires room { 0 < length buf.old }
    ensures longest { result ≡ min (min (length rest.now) piece) (length buf.old) }
    ensures bytes { GivesNext rest.now result buf.new }
{
    let n = rest.len().min(piece).min(buf.len());
    buf[..n].copy_from_slice(&rest[..n]);
    n
}
