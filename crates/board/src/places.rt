// A copy of an answer, with room for more vertices.
ghost use Rattle.std.specs.Prelude.{◌≡◌, ◌+◌, ◌<◌, ◌≤◌, ◌++◌, [], length, take, drop, IfOk};
ghost use Rattle.std.specs.Prelude.{slice_index_or};
ghost use Rattle.std.specs.List.{All};
ghost use Rattle.run_model.specs.Logs.{with_value};
ghost use Rattle.run_model.specs.Program.{number};
ghost use Rattle.board.specs.Halls.{fitted as fitted_to, with_change_in, with_changes_in};

use bolt_base::{Answer, AnswerChange, Lanes, Memory};
use std::alloc::Global;
use std::marker::Model;

/// Places for the values of vertices, flat: a number for each lane of each place. The first places
/// are in use.
#[derive(Drop)]
pub struct Places {
    width: u32,
    room: u32,
    used: u32,
    words: Vec<i64>,
}

impl Model for Places {
    ghost use Rattle.board.specs.Halls.{Hall, ArePlaces, values_in};

    ghost Value = { Hall };

    ghost view = { λ p. record {
      values = values_in p.width p.used p.words.items;
      room = p.room;
      width = p.width;
    } };

    ghost invariant = { λ p. ArePlaces p.width p.room p.used p.words.items };
}

// A value as the places hold it: one of another width counts as zeros.
fn fitted(value: &Lanes, width: u32) -> Lanes
    requires some { 1 ≤ width }
    requires narrow { width ≤ 8 }
    ensures { result ≡ fitted_to width value.now }
{
    if value.width() == width {
        *value
    } else {
        Lanes::zeros(width)
    }
}

fn overwrite(words: &mut [i64], from: usize, new: &[i64])
    requires { from + length new.now ≤ length words.old }
    ensures { words.new ≡ take from words.old ++
        (new.now ++ drop (from + length new.now) words.old) }
{
    words[from..from + new.len()].copy_from_slice(new);
}

impl Places {
    /// An answer's values, each of this width, with room for this many vertices.
    pub fn new(alloc: Global, start: &Answer, width: u32, room: u32) -> Result<Places, Memory>
        requires some { 1 ≤ width }
        requires narrow { width ≤ 8 }
        requires wide { All (λ xs. length xs ≡ width) start.now }
        requires fits { length start.now ≤ room }
        ensures { IfOk result
            (λ p. p ≡ record { values = start.now; room = room; width = width }) }
    {
        let all = room as usize * width as usize;
        let mut words = Vec::with_capacity(alloc, all)?;
        for value in start.as_slice() {
            words.extend_from_slice(value.as_slice())?;
        }
        words.resize(all, 0)?;
        Ok(Places {
            width,
            room,
            used: start.len() as u32,
            words,
        })
    }

    // The number of lanes.
    fn width(&self) -> u32
        ensures width { result ≡ self.now.width }
        ensures wide { All (λ xs. length xs ≡ result) self.now.values }
        ensures some { 1 ≤ result }
        ensures narrow { result ≤ 8 }
    {
        self.width
    }

    /// The number of vertices.
    pub fn len(&self) -> u32
        ensures { result ≡ length self.now.values }
    {
        self.used
    }

    /// A lane of a vertex's value.
    pub fn number(&self, vertex: u32, lane: u32) -> i64
        requires vertex { vertex < length self.now.values }
        requires lane { lane < self.now.width }
        ensures { result ≡ number (slice_index_or self.now.values vertex []) lane }
    {
        self.words[vertex as usize * self.width as usize + lane as usize]
    }

    /// The value of a vertex.
    pub fn value(&self, vertex: u32) -> Lanes
        requires { vertex < length self.now.values }
        ensures { result ≡ slice_index_or self.now.values vertex [] }
    {
        let width = self.width();
        let mut value = Lanes::zeros(width);
        for lane in 0..width {
            value.set(lane, self.number(vertex, lane));
        }
        value
    }

    // Writes a value over that of a vertex, or behind the last one.
    fn write(&mut self, vertex: u32, value: &Lanes)
        requires next { vertex ≤ length self.old.values }
        requires room { vertex < self.old.room }
        requires width { length value.now ≡ self.old.width }
        ensures { self.new ≡ record self.old {
          values = with_value self.old.values vertex value.now;
        } }
    {
        overwrite(
            &mut self.words,
            vertex as usize * self.width as usize,
            value.as_slice(),
        );
        if vertex == self.used {
            self.used += 1;
        }
    }

    // Takes a change in, where there is a place for it.
    fn put(&mut self, change: &AnswerChange)
        ensures { self.new ≡ record self.old {
          values = with_change_in self.old.width self.old.room self.old.values change.now;
        } }
    {
        if change.vertex > self.used {
            return;
        }
        if change.vertex >= self.room {
            return;
        }
        let value = fitted(&change.value, self.width());
        self.write(change.vertex, &value);
    }

    /// Takes changes in, in order.
    pub fn put_all(&mut self, changes: &[AnswerChange])
        ensures { self.new ≡ record self.old {
          values = with_changes_in self.old.width self.old.room self.old.values changes.now;
        } }
    {
        for change in changes {
            self.put(change);
        }
    }
}
