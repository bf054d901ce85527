// What is put at one iteration.
ghost use Rattle.std.specs.Prelude.{◌≡◌, pos, ◌+◌, ◌<◌, ◌≤◌, ◌^◌, ◌++◌, ◌∷◌, [], length, map};
ghost use Rattle.std.specs.Prelude.{slice_index_or, OnOk, OnErr};
ghost use Rattle.agg_history.specs.PutList.{put_in};
ghost use Rattle.agg_history.specs.Entries.{with_entry};

use crate::cells::Cells;
use bolt_base::Lanes;
use std::alloc::{AllocError, Global};
use std::marker::Model;

/// Vertices in the order of putting, each with the entry that was put for it.
#[derive(Debug, Drop)]
pub struct PutList {
    vertices: Vec<u32>,
    cells: Cells,
}

impl Model for PutList {
    ghost use Rattle.agg_history.specs.PutList.{ListedPuts, coded_listed};

    ghost Value = { ListedPuts };

    ghost coded = { coded_listed };

    ghost use Rattle.agg_history.specs.PutListOf.{listed_of, ArePaired};

    ghost view = { listed_of };

    ghost invariant = { ArePaired };
}

impl PutList {
    /// Nothing is put. Takes no memory.
    pub fn new(alloc: Global, lanes: u32) -> PutList
        requires { lanes ≤ 8 }
        ensures { result ≡ record { lanes = lanes; puts = [] } }
    {
        PutList {
            vertices: Vec::new(alloc),
            cells: Cells::new(alloc, lanes),
        }
    }

    /// How many were put.
    pub fn len(&self) -> u32
        ensures { result ≡ length self.now.puts }
    {
        self.cells.len()
    }

    /// The vertices in the order of putting.
    pub fn vertices(&self) -> &[u32]
        ensures { result.now ≡ map (λ put. put.0) self.now.puts }
    {
        let _cells = &self.cells;
        self.vertices.as_slice()
    }

    /// A lane of the aggregate of a put.
    pub fn agg(&self, place: u32, lane: u32) -> i64
        requires place { place < length self.now.puts }
        requires lane { lane < self.now.lanes }
        ensures { result ≡ slice_index_or ((put_in self.now.puts place).1.0) lane (pos 0) }
    {
        self.cells.agg(place, lane)
    }

    /// A lane of the value of a put.
    pub fn val(&self, place: u32, lane: u32) -> i64
        requires place { place < length self.now.puts }
        requires lane { lane < self.now.lanes }
        ensures { result ≡ slice_index_or ((put_in self.now.puts place).1.1) lane (pos 0) }
    {
        self.cells.val(place, lane)
    }

    /// Appends a put. Nothing changes after an error.
    pub fn push(&mut self, v: u32, agg: &Lanes, val: &Lanes) -> Result<(), AllocError>
        requires agg { length agg.now ≡ self.old.lanes }
        requires val { length val.now ≡ self.old.lanes }
        requires room { length self.old.puts + 1 < 2 ^ 32 }
        ensures ok { OnOk result
            (self.new ≡ record self.old { puts = self.old.puts ++ (v, (agg.now, val.now)) ∷ [] }) }
        ensures err { OnErr result (self.new ≡ self.old) }
    {
        self.cells.push(agg, val)?;
        match self.vertices.push(v) {
            Ok(()) => Ok(()),
            Err(_) => {
                let len = self.cells.len();
                self.cells.truncate(len - 1);
                Err(AllocError)
            }
        }
    }

    /// Appends the entry of a put to other entries. Nothing changes after an error.
    pub fn push_onto(&self, place: u32, column: &mut Cells) -> Result<(), AllocError>
        requires place { place < length self.now.puts }
        requires lanes { self.now.lanes ≡ column.old.lanes }
        requires room { length column.old.all + 1 < 2 ^ 32 }
        ensures ok { OnOk result
            (column.new ≡ with_entry column.old (put_in self.now.puts place).1) }
        ensures err { OnErr result (column.new ≡ column.old) }
    {
        column.push_from(&self.cells, place)
    }
}
