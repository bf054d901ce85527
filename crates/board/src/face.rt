// What is published, and what changes it.

use crate::book::Receipt;
use crate::kinds::Sheet;
use crate::note::RoundNote;
use crate::places::Places;
use left_right::Absorb;
use std::alloc::AllocError;

/// What is published: an answer, and the log that it shows.
#[derive(Drop)]
pub struct Face {
    pub answer: Places,
    pub front: Receipt,
}

/// A note, and the log with it.
#[derive(Drop)]
pub struct Put {
    pub note: RoundNote,
    pub front: Receipt,
}

/// A change of the face. `Nothing` changes nothing.
#[derive(Drop)]
pub enum Change {
    Nothing,
    Put(Put),
}

impl Absorb<Change> for Face {
    ghost use Rattle.board.specs.Sheets.{sheet_of, changed};

    type State = Sheet;

    ghost state = { sheet_of };

    ghost applied = { changed };

    ghost never_fails = { Unit {0} };

    fn absorb_first(&mut self, operation: &Change, _other: &Face) -> Result<(), AllocError> {
        match operation {
            Change::Nothing => {}
            Change::Put(put) => {
                self.answer.put_all(put.note.changes.as_slice());
                self.front = put.front.again();
            }
        }
        Ok(())
    }
}
