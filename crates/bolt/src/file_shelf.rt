// Real files.
use bolt_io::{OpenFault, Shelf, ShelfFault};
use std::alloc::Global;
use std::fs::File;
use std::io;
use std::io::{ErrorKind, Read};
use std::rt::Files;

/// The files of the system. It tells nothing of their bytes.
#[derive(Drop)]
pub struct FileShelf<'a, R: Files> {
    rt: &'a R,
    files: Vec<R::File>,
    faults: u64,
}

impl<'a, R: Files> FileShelf<'a, R> {
    ghost use Rattle.std.specs.Prelude.{◌≡◌, ◌≢◌, ◌∷◌, ◌++◌, ◌<◌, ◌^◌, [], length, IsOk, Err, IfOk};
    ghost use Rattle.std.specs.Prelude.{OnOk, OnErr, IfErr};
    ghost use Rattle.std.specs.IoError.{error_kind};
    ghost use Rattle.bolt_io.specs.Faults.{one_more};

    /// No file is opened yet.
    pub fn new(rt: &'a R, alloc: Global) -> Self
        ensures files { result.files.items ≡ [] }
        ensures faults { result.faults ≡ 0 }
    {
        FileShelf {
            rt,
            files: Vec::new(alloc),
            faults: 0,
        }
    }

    // Keeps a file that was opened in the next slot, or tells why there is none: want of memory,
    // which isn't counted, or a failure, which is.
    fn keep(&mut self, opened: io::Result<R::File>) -> Result<u32, OpenFault>
        requires { length self.old.files.items < 2 ^ 31 }
        ensures opened { OnOk result (IsOk opened) }
        ensures slot { IfOk result (λ slot. slot ≡ length self.old.files.items) }
        ensures holds { IfOk opened (λ file. OnOk result (self.new.files.items
            ≡ self.old.files.items ++ file ∷ [])) }
        ensures none_more { OnErr result (self.new.files.items ≡ self.old.files.items) }
        ensures no_room { IfOk opened (λ _. OnErr result (result ≡ Err OpenFault.Memory)) }
        ensures memory { IfErr opened (λ e. error_kind e ≡ ErrorKind.OutOfMemory
            → result ≡ Err OpenFault.Memory) }
        ensures failed { IfErr opened (λ e. error_kind e ≢ ErrorKind.OutOfMemory
            → result ≡ Err OpenFault.Failed) }
        ensures counted { result ≡ Err OpenFault.Failed
            → self.new.faults ≡ one_more self.old.faults }
        ensures calm { result ≢ Err OpenFault.Failed → self.new.faults ≡ self.old.faults }
    {
        let slot = self.files.len() as u32;
        match opened {
            Ok(file) => match self.files.push(file) {
                Ok(()) => Ok(slot),
                Err(_) => Err(OpenFault::Memory),
            },
            Err(error) => match error.kind() {
                ErrorKind::OutOfMemory => Err(OpenFault::Memory),
                _ => {
                    self.faults = self.faults.saturating_add(1);
                    Err(OpenFault::Failed)
                }
            },
        }
    }
}

impl<'a, R: Files> Shelf for FileShelf<'a, R> {
    ghost use Rattle.std.specs.Prelude.{◌≡◌, ◌≢◌, ◌+◌, ◌<◌, ◌≤◌, ◌^◌, ℕ, length, take, IfOk, OnOk};
    ghost use Rattle.std.specs.Prelude.{OnErr, IfSome, IsErrOf, slice_get};
    ghost use Rattle.std.specs.Option.{option_map};
    ghost use Rattle.std.specs.Io.KnownBytes.{ReadConsumes};
    ghost use Rattle.bolt_io.specs.Faults.{count_of, count_of-fits, Rose};
    ghost use Rattle.bolt_io.specs.Told.{opened_at, taken_from, left, GivesNext};
    ghost use Rattle.bolt.specs.Untold.{untold};

    ghost faults = { λ s. count_of s.faults };

    ghost opened = { λ s. length s.files.items };

    ghost told = { λ s. untold };

    ghost tells_slots = { λ s. tt };

    ghost faults_fit = { λ s. count_of-fits s.faults };

    // The files of the earlier slots stay in them.
    fn open(&mut self, name: &str) -> Result<u32, OpenFault>
        requires { length self.old.files.items < 2 ^ 31 }
        ensures slot { IfOk result (λ slot. slot ≡ length self.old.files.items) }
        ensures one_more { OnOk result (length self.new.files.items
            ≡ length self.old.files.items + 1) }
        ensures kept { take (length self.old.files.items) self.new.files.items
            ≡ self.old.files.items }
        ensures told { OnOk result (untold ≡ option_map (opened_at name.now) untold) }
        ensures none_more { OnErr result (length self.new.files.items
            ≡ length self.old.files.items) }
        ensures untouched { OnErr result (untold ≡ untold) }
        ensures failed { IsErrOf result OpenFault.Failed
            → Rose (count_of self.old.faults) (count_of self.new.faults) }
        ensures memory { IsErrOf result OpenFault.Memory
            → count_of self.new.faults ≡ count_of self.old.faults }
        ensures calm { OnOk result (count_of self.new.faults ≡ count_of self.old.faults) }
        ensures later { count_of self.old.faults ≤ count_of self.new.faults }
    {
        Ok(self.keep(File::open(self.rt, name))?)
    }

    // Where the file of the slot tells its bytes, those that were answered are its next ones, none
    // only at its end, and a fault takes none.
    fn read(&mut self, slot: u32, buf: &mut [u8]) -> Result<usize, ShelfFault>
        requires slot { slot < length self.old.files.items }
        requires room { 0 < length buf.old }
        ensures within { IfOk result (λ n. n ≤ length buf.old) }
        ensures consumes { IfSome (slice_get self.old.files.items slot)
            (λ old. IfSome (slice_get self.new.files.items slot)
            (λ new. ReadConsumes (R.File.remaining old) (R.File.remaining new) result buf.new)) }
        ensures told { IfOk result (λ n. untold ≡ option_map (taken_from slot n) untold) }
        ensures bytes { IfOk result (λ n. IfSome untold (λ t. GivesNext (left t slot) n buf.new)) }
        ensures untouched { OnErr result (untold ≡ untold) }
        ensures others { (k : ℕ) → k ≢ slot
            → slice_get self.new.files.items k ≡ slice_get self.old.files.items k }
        ensures opened { length self.new.files.items ≡ length self.old.files.items }
        ensures failed { OnErr result (Rose (count_of self.old.faults) (count_of self.new.faults)) }
        ensures calm { OnOk result (count_of self.new.faults ≡ count_of self.old.faults) }
        ensures later { count_of self.old.faults ≤ count_of self.new.faults }
    {
        match self.files[slot as usize].read(buf) {
            Ok(n) => Ok(n),
            Err(_) => {
                self.faults = self.faults.saturating_add(1);
                Err(ShelfFault::Failed)
            }
        }
    }
}
