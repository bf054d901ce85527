// The rows of a run, as flat numbers.
ghost use Rattle.std.specs.Prelude.{◌≡◌, pos, ◌<◌, ◌≤◌, ◌^◌, ◌++◌, ◌∷◌, [], length};
ghost use Rattle.std.specs.Prelude.{slice_index_or, IfOk, OnOk, OnErr};
ghost use Rattle.std.specs.List.{All, flat_map, zip};
ghost use Rattle.bolt_base.specs.RowTable.{entry_at};
ghost use Rattle.bolt_base.specs.RowShape.{AreRectangular};

use crate::lanes::Lanes;
use crate::memory::Memory;
use std::alloc::{AllocError, Global};
use std::marker::Model;

/// The most rows of a run: those of the iterations 0 to 64.
pub const MOST_ROWS: u32 = 65;

// The numbers of a row: those of the aggregates, vertex by vertex and lane by lane, and those of
// the values.
#[derive(Debug, Drop)]
struct FlatRow {
    aggs: Vec<i64>,
    vals: Vec<i64>,
}

/// The rows of a run from iteration 0 on, at most 65, each with an entry for each vertex: an
/// aggregate and a value.
#[derive(Debug, Drop)]
pub struct Rows {
    vertices: u32,
    lanes: u32,
    rows: Vec<FlatRow>,
}

impl Model for Rows {
    ghost use Rattle.bolt_base.specs.RowTable.{RowTable, coded_row_table};

    ghost Value = { RowTable };

    ghost coded = { coded_row_table };

    ghost use Rattle.bolt_base.specs.RowsOf.{rows_of, AreFlat};

    ghost view = { rows_of };

    ghost invariant = { AreFlat };
}

impl Rows {
    /// No rows yet. Takes no memory.
    pub fn new(alloc: Global, vertices: u32, lanes: u32) -> Rows
        requires some { 1 ≤ lanes }
        requires narrow { lanes ≤ 8 }
        ensures { result ≡ record { vertices = vertices; lanes = lanes; rows = [] } }
    {
        Rows {
            vertices,
            lanes,
            rows: Vec::new(alloc),
        }
    }

    /// The number of rows.
    pub fn len(&self) -> u32
        ensures len { result ≡ length self.now.rows }
        ensures few { result ≤ MOST_ROWS }
    {
        self.rows.len() as u32
    }

    /// The number of vertices, as `new` was given it: each row has one entry for each, both halves
    /// of it one number for each lane, and there are at most `MOST_ROWS` rows.
    pub fn vertices(&self) -> u32
        ensures vertices { result ≡ self.now.vertices }
        ensures shape { AreRectangular self.now }
    {
        self.vertices
    }

    /// The number of lanes, as `new` was given it, 1 to 8. `vertices` says how rows have it.
    pub fn lanes(&self) -> u32
        ensures lanes { result ≡ self.now.lanes }
        ensures some { 1 ≤ result }
        ensures narrow { result ≤ 8 }
    {
        self.lanes
    }

    /// A lane of the aggregate of vertex `v` at iteration `i`.
    pub fn agg(&self, i: u32, v: u32, lane: u32) -> i64
        requires iteration { i < length self.now.rows }
        requires vertex { v < self.now.vertices }
        requires lane { lane < self.now.lanes }
        ensures { result ≡ slice_index_or ((entry_at self.now.rows i v).0) lane (pos 0) }
    {
        let row = &self.rows[i as usize];
        row.aggs[v as usize * self.lanes as usize + lane as usize]
    }

    /// A lane of the value of vertex `v` at iteration `i`.
    pub fn val(&self, i: u32, v: u32, lane: u32) -> i64
        requires iteration { i < length self.now.rows }
        requires vertex { v < self.now.vertices }
        requires lane { lane < self.now.lanes }
        ensures { result ≡ slice_index_or ((entry_at self.now.rows i v).1) lane (pos 0) }
    {
        let row = &self.rows[i as usize];
        row.vals[v as usize * self.lanes as usize + lane as usize]
    }

    /// Appends the row of these aggregates and values, one of each for each vertex. Nothing changes
    /// after `Memory`.
    pub fn add_row(&mut self, aggs: &[Lanes], vals: &[Lanes]) -> Result<(), Memory>
        requires few { length self.old.rows < MOST_ROWS }
        requires aggs { length aggs.now ≡ self.old.vertices }
        requires vals { length vals.now ≡ self.old.vertices }
        requires agg_lanes { All (λ agg. length agg ≡ self.old.lanes) aggs.now }
        requires val_lanes { All (λ val. length val ≡ self.old.lanes) vals.now }
        ensures ok { OnOk result (self.new ≡ record self.old {
          rows = self.old.rows
              ++ zip aggs.now vals.now ∷ [];
        }) }
        ensures err { OnErr result (self.new ≡ self.old) }
    {
        let alloc = *self.rows.allocator();
        let row = FlatRow {
            aggs: numbers_of(alloc, aggs, self.lanes)?,
            vals: numbers_of(alloc, vals, self.lanes)?,
        };
        self.rows.push(row)?;
        Ok(())
    }
}

// The numbers of the items, one item after another.
fn numbers_of(alloc: Global, items: &[Lanes], lanes: u32) -> Result<Vec<i64>, AllocError>
    requires few { length items.now < 2 ^ 32 }
    requires narrow { lanes ≤ 8 }
    ensures { IfOk result (λ numbers. numbers.items ≡ flat_map (λ item. item) items.now) }
{
    let mut numbers = Vec::with_capacity(alloc, items.len() * lanes as usize)?;
    for item in items {
        numbers.extend_from_slice(item.as_slice())?;
    }
    Ok(numbers)
}
