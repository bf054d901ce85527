// The values of vertices, wherever they are kept.
ghost use Rattle.std.specs.Prelude.{◌≡◌, ◌<◌, length};
ghost use Rattle.run_model.specs.Rows.{Lists, at};

use bolt_base::Lanes;

/// A value for each vertex, a number for each lane.
pub trait ValueRow {
    /// The values, vertex by vertex.
    ghost values: { Self → Lists };

    /// The value of a vertex.
    fn value(&self, v: u32) -> Lanes
        requires vertex { v < length (values self.now) }
        ensures value { result ≡ at (values self.now) v };
}

/// Values that lie side by side.
#[derive(Clone, Copy)]
pub struct LaneRow<'a> {
    /// The values, vertex by vertex.
    pub lanes: &'a [Lanes],
}

impl<'a> ValueRow for LaneRow<'a> {
    ghost values = { λ row. row.lanes.now };

    #[inline]
    fn value(&self, v: u32) -> Lanes {
        self.lanes[v as usize]
    }
}
