// A journal behind a lock.
use crate::journal::Journal;
use std::sync::{Condvar, Mutex, MutexGuard, Wait};

/// A lock round a journal, and those who wait for the journal to change.
#[derive(Drop)]
pub struct Door {
    journal: Mutex<Journal>,
    changed: Condvar,
}

impl Door {
    /// A lock round this journal.
    pub fn new(journal: Journal) -> Door {
        Door {
            journal: Mutex::new(journal),
            changed: Condvar::new(),
        }
    }

    /// Waits for the lock, and lends the journal.
    pub fn lock<R: Wait>(&self, rt: &R) -> MutexGuard<'_, Journal> {
        self.journal.lock(rt)
    }

    /// Gives the lock up and takes it again, after a wake or without one.
    pub fn wait<'a, R: Wait>(
        &'a self,
        rt: &R,
        guard: MutexGuard<'a, Journal>,
    ) -> MutexGuard<'a, Journal> {
        self.changed.wait(rt, guard)
    }

    /// Wakes all who wait.
    pub fn wake<R: Wait>(&self, _rt: &R) {
        self.changed.notify_all();
    }

    /// The journal, without its lock.
    pub fn finish(self) -> Journal {
        let Door {
            journal,
            changed: _,
        } = self;
        journal.into_inner()
    }
}
