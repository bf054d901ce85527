// The entries of a vertex with an overlay over them.
ghost use Rattle.std.specs.Prelude.{◌≡◌, ◌+◌, ◌<◌, ◌≤◌, ◌^◌, length, IsSome, OnOk};
ghost use Rattle.bolt_base.specs.Keep.{column};
ghost use Rattle.bolt_base.specs.RowTable.{entry_at};
ghost use Rattle.agg_history.specs.Puts.{put_at, laid_at};
ghost use Rattle.agg_history.specs.Pruned.{rows_of, vertices_of};
ghost use Rattle.agg_history.specs.Belongs.{BelongsTo, NewArePut, laid_rows};
ghost use Rattle.agg_history.specs.Entries.{with_entry};

use crate::cells::Cells;
use crate::history::History;
use crate::overlay::Overlay;
use std::alloc::AllocError;

impl History {
    // Makes the entries those of a vertex at all iterations, with the overlay's over them.
    pub(super) fn fill_laid(
        &self,
        overlay: &Overlay,
        v: u32,
        entries: &mut Cells,
    ) -> Result<(), AllocError>
        requires belongs { BelongsTo overlay.now self.now }
        requires new { NewArePut overlay.now }
        requires vertex { v < overlay.now.vertices }
        requires lanes { entries.old.lanes ≡ self.now.lanes }
        ensures { OnOk result
            (entries.new ≡ record {
              lanes = self.now.lanes;
              all = column (laid_rows overlay.now self.now) v;
            }) }
    {
        entries.clear();
        for i in 0..self.cut + 1 {
            self.push_laid(overlay, i, v, entries)?;
        }
        Ok(())
    }

    // Appends what was put, else what the history has.
    fn push_laid(
        &self,
        overlay: &Overlay,
        i: u32,
        v: u32,
        entries: &mut Cells,
    ) -> Result<(), AllocError>
        requires belongs { BelongsTo overlay.now self.now }
        requires iteration { i ≤ self.now.cut }
        requires vertex { v < overlay.now.vertices }
        requires new { overlay.now.old_vertices ≤ v → IsSome (put_at overlay.now.puts i v) }
        requires lanes { entries.old.lanes ≡ self.now.lanes }
        requires room { length entries.old.all + 1 < 2 ^ 32 }
        ensures { OnOk result
            (entries.new ≡ with_entry entries.old
            (laid_at overlay.now.puts (rows_of self.now) i v)) }
    {
        let place = overlay.place(i, v);
        if place == 0 {
            return self.push_entry(i, v, entries);
        }
        overlay.push_put(i, place - 1, entries)
    }

    // Appends the entry of a vertex at an iteration, kept or pruned.
    fn push_entry(&self, i: u32, v: u32, entries: &mut Cells) -> Result<(), AllocError>
        requires iteration { i ≤ self.now.cut }
        requires vertex { v < vertices_of self.now }
        requires lanes { entries.old.lanes ≡ self.now.lanes }
        requires room { length entries.old.all + 1 < 2 ^ 32 }
        ensures { OnOk result
            (entries.new ≡ with_entry entries.old (entry_at (rows_of self.now) i v)) }
    {
        let track = &self.tracks[v as usize];
        let place = i.min(track.len());
        if place == 0 {
            return entries.push_from(&self.first, v);
        }
        entries.push_from(track, place - 1)
    }
}
