// The kept entries of a run.
ghost use Rattle.std.specs.Prelude.{◌≡◌, pos, ◌<◌, ◌≤◌, length, slice_index_or};
ghost use Rattle.bolt_base.specs.Keep.{column, keep, kept};
ghost use Rattle.bolt_base.specs.RowTable.{entry_at};
ghost use Rattle.agg_history.specs.Pruned.{pruned, rows_of, vertices_of};

mod commit;
mod laid;
mod make;
mod reserve;

use crate::cells::Cells;
use std::marker::Model;

// What a commit puts in place: lists for vertices, and their entries of iteration 0 in the same
// order.
#[derive(Debug, Drop)]
pub struct Draft {
    vertices: u32,
    kept: u64,
    lists: Vec<(u32, Cells)>,
    heads: Cells,
}

/// The rows of a run as row 0 and the kept entries of each vertex, and perhaps what a commit will
/// make of them.
#[derive(Debug, Drop)]
pub struct History {
    vertical: bool,
    cut: u32,
    lanes: u32,
    vertices: u32,
    kept: u64,
    first: Cells,
    tracks: Vec<Cells>,
    draft: Option<Draft>,
}

impl Model for History {
    ghost use Rattle.agg_history.specs.Pruned.{HistoryState, coded_history};

    ghost Value = { HistoryState };

    ghost coded = { coded_history };

    ghost use Rattle.agg_history.specs.HistoryOf.{history_of, IsHistory};

    ghost view = { history_of };

    ghost invariant = { IsHistory };
}

impl History {
    /// The number of vertices. The lists of all of them are exactly what is kept of the rows.
    pub fn vertices(&self) -> u32
        ensures count { result ≡ vertices_of self.now }
        ensures stored { self.now.now ≡ pruned self.now.vertical (rows_of self.now) }
    {
        self.vertices
    }

    /// The last kept iteration.
    pub fn cut(&self) -> u32
        ensures { result ≡ self.now.cut }
    {
        self.cut
    }

    /// A lane of the aggregate of vertex `v` at iteration `i`, kept or pruned.
    pub fn agg(&self, i: u32, v: u32, lane: u32) -> i64
        requires iteration { i ≤ self.now.cut }
        requires vertex { v < vertices_of self.now }
        requires lane { lane < self.now.lanes }
        ensures { result ≡ slice_index_or ((entry_at (rows_of self.now) i v).0) lane (pos 0) }
    {
        let track = &self.tracks[v as usize];
        let place = i.min(track.len());
        if place == 0 {
            return self.first.agg(v, lane);
        }
        track.agg(place - 1, lane)
    }

    /// A lane of the value of vertex `v` at iteration `i`, kept or pruned.
    pub fn val(&self, i: u32, v: u32, lane: u32) -> i64
        requires iteration { i ≤ self.now.cut }
        requires vertex { v < vertices_of self.now }
        requires lane { lane < self.now.lanes }
        ensures { result ≡ slice_index_or ((entry_at (rows_of self.now) i v).1) lane (pos 0) }
    {
        let track = &self.tracks[v as usize];
        let place = i.min(track.len());
        if place == 0 {
            return self.first.val(v, lane);
        }
        track.val(place - 1, lane)
    }

    /// The number of kept entries of all vertices.
    pub fn kept(&self) -> u64
        ensures { result ≡ kept self.now.vertical (rows_of self.now) (vertices_of self.now) }
    {
        self.kept
    }

    /// The number of kept iterations of a vertex.
    pub fn length(&self, v: u32) -> u32
        requires { v < vertices_of self.now }
        ensures { result ≡ keep self.now.vertical (column (rows_of self.now) v) }
    {
        let track = &self.tracks[v as usize];
        track.len()
    }
}
