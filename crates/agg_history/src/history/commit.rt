// The commit of an overlay.
ghost use Rattle.std.specs.Prelude.{◌≡◌, length, None};
ghost use Rattle.std.specs.List.{zip};
ghost use Rattle.swaps.specs.Swaps.{put_all, AreInside, places};
ghost use Rattle.agg_history.specs.Pruned.{rows_of, pruned};
ghost use Rattle.agg_history.specs.Belongs.{Fits, laid_rows};

use crate::cells::Cells;
use crate::history::History;
use crate::overlay::Overlay;
use swaps::swap_in;

impl History {
    /// Lays a reserved overlay over the rows, with its new vertices at their ends. Takes no memory.
    pub fn commit(&mut self, overlay: Overlay)
        requires { Fits overlay self.old }
        ensures rows { rows_of self.new ≡ laid_rows overlay self.old }
        ensures state { self.new
            ≡ record self.old {
              now = pruned self.old.vertical (laid_rows overlay self.old);
              next = None;
            } }
    {
        let _ = overlay;
        let Some(mut draft) = self.draft.take() else {
            return;
        };
        put_heads(&mut self.first, &draft.lists, &draft.heads);
        swap_in(&mut self.tracks, &mut draft.lists);
        self.vertices = draft.vertices;
        self.kept = draft.kept;
    }
}

// Puts new entries of iteration 0 in their places.
fn put_heads(first: &mut Cells, lists: &[(u32, Cells)], heads: &Cells)
    requires inside { AreInside (length first.old.all) lists.now }
    requires count { length heads.now.all ≡ length lists.now }
    requires lanes { heads.now.lanes ≡ first.old.lanes }
    ensures { first.new ≡ record first.old {
      all = put_all (zip (places lists.now) heads.now.all) first.old.all;
    } }
{
    for k in 0..heads.len() {
        let (v, _) = &lists[k as usize];
        first.set_from(*v, heads, k);
    }
}
