ghost use Rattle.std.specs.Prelude.{◌≡◌, ℕ, ◌<◌, ◌≤◌, length, IsSome, IfOk, OnOk};
ghost use Rattle.agg_history.specs.Puts.{put_at};
ghost use Rattle.agg_history.specs.Belongs.{NewArePut};
ghost use Rattle.agg_history.specs.declared.tests.TheConstants.{CUT};

use crate::{History, Overlay};
use bolt_base::{Lanes, Memory, Rows};
use std::alloc::Global;
use std::process::Abort;
use std::test::Fail;

// The cut of the histories that are made at random.
const CUT: u32 = 3;

fn one(x: i64) -> Lanes
    ensures { length result ≡ 1 }
{
    let mut lanes = Lanes::zeros(1);
    lanes.set(0, x);
    lanes
}

// Appends a row of entries of one lane.
fn add_row(
    rt: &impl Abort,
    alloc: Global,
    rows: &mut Rows,
    entries: &[(i64, i64)],
) -> Result<(), Memory>
    requires { rows.old.lanes ≡ 1 }
    ensures { rows.new ≡ record rows.old { rows = rows.new.rows } }
{
    let mut aggs = Vec::new(alloc);
    let mut vals = Vec::new(alloc);
    for (agg, val) in entries {
        aggs.push(one(*agg))?;
        vals.push(one(*val))?;
    }
    assert_eq!(rt; aggs.len(), rows.vertices() as usize);
    assert!(rt; rows.len() < 65);
    rows.add_row(&aggs, &vals)
}

// A history of entries of one lane: those of row 0, then those of row 1, and so on.
fn history_of(
    rt: &impl Abort,
    alloc: Global,
    vertices: u32,
    entries: &[(i64, i64)],
    cut: u32,
    vertical: bool,
) -> Result<History, Memory>
    requires some { 1 ≤ vertices }
    requires cut { cut ≤ 64 }
    ensures cut { IfOk result (λ history. history.cut ≡ cut) }
    ensures lanes { IfOk result (λ history. history.lanes ≡ 1) }
{
    let mut rows = Rows::new(alloc, vertices, 1);
    for row in entries.chunks(vertices as usize) {
        add_row(rt, alloc, &mut rows, row)?;
    }
    assert_eq!(rt; rows.len(), cut + 1);
    History::from_rows(alloc, rows, cut, vertical)
}

#[test]
fn worked_rows_keep_as_many(rt: HostRuntime) -> Result<(), Fail> {
    let alloc = rt.alloc();
    // ranks along the edges 0 1, 1 2, 2 0 and 0 2
    let ranks = [
        (0, 1000000),
        (0, 1000000),
        (0, 1000000),
        (1000000, 1000000),
        (500000, 575000),
        (1500000, 1425000),
        (1425000, 1361250),
        (500000, 575000),
        (1075000, 1063750),
    ];
    assert_eq!(rt; history_of(&rt, alloc, 3, &ranks, 2, true)?.kept(), 5);
    assert_eq!(rt; history_of(&rt, alloc, 3, &ranks[..6], 1, true)?.kept(), 3);
    Ok(())
}

#[test]
fn values_on_a_path_keep_as_many(rt: HostRuntime) -> Result<(), Fail> {
    let alloc = rt.alloc();
    // values that move one vertex further in each round
    let mut shifted = vec![in alloc; (0, 5), (0, 7), (0, 7), (0, 7), (0, 7)]?;
    shifted.extend_from_slice(&[(0, 0), (5, 5), (7, 7), (7, 7), (7, 7)])?;
    shifted.extend_from_slice(&[(0, 0), (0, 0), (5, 5), (7, 7), (7, 7)])?;
    shifted.extend_from_slice(&[(0, 0), (0, 0), (0, 0), (5, 5), (7, 7)])?;
    shifted.extend_from_slice(&[(0, 0), (0, 0), (0, 0), (0, 0), (5, 5)])?;
    assert_eq!(rt; history_of(&rt, alloc, 5, &shifted, 4, true)?.kept(), 14);
    assert_eq!(rt; history_of(&rt, alloc, 5, &shifted, 4, false)?.kept(), 20);
    Ok(())
}

#[test]
fn values_cut_off_keep_as_many(rt: HostRuntime) -> Result<(), Fail> {
    let alloc = rt.alloc();
    // the same values, cut off at 6
    let mut clipped = vec![in alloc; (0, 5), (0, 7), (0, 7), (0, 7), (0, 7)]?;
    clipped.extend_from_slice(&[(0, 0), (5, 5), (7, 6), (7, 6), (7, 6)])?;
    clipped.extend_from_slice(&[(0, 0), (0, 0), (5, 5), (6, 6), (6, 6)])?;
    assert_eq!(rt; history_of(&rt, alloc, 5, &clipped, 2, true)?.kept(), 9);
    Ok(())
}

#[test]
fn a_batch_is_laid_over(rt: HostRuntime) -> Result<(), Fail> {
    let alloc = rt.alloc();
    let mut history = history_of(&rt, alloc, 1, &[(0, 3), (4, 5)], 1, true)?;
    assert_eq!(rt; history.vertices(), 1);
    let mut overlay = Overlay::new(alloc, 1, 1, 1, 1)?;
    overlay.put(1, 0, one(0), one(3))?;
    assert_eq!(rt; overlay.vertices_at(1), [0].as_slice());
    let read = (
        overlay.agg(&history, 1, 0, 0),
        overlay.val(&history, 0, 0, 0),
    );
    assert_eq!(rt; read, (0, 3));
    history.reserve(&overlay)?;
    history.release();
    history.reserve(&overlay)?;
    history.commit(overlay);
    assert_eq!(rt; history.kept(), 0);
    Ok(())
}

// The next number of a sequence.
fn draw(state: &mut u64) -> u64 {
    *state = state
        .wrapping_mul(6364136223846793005)
        .wrapping_add(1442695040888963407);
    *state >> 33
}

// An entry that often equals others.
fn drawn(state: &mut u64) -> (i64, i64) {
    ((draw(state) % 2) as i64, (draw(state) % 2) as i64)
}

// Where the entry of a vertex at an iteration stands among those of so many vertices.
fn place(vertices: u32, i: u32, v: u32) -> usize {
    i.wrapping_mul(vertices).wrapping_add(v) as usize
}

// Makes sure that something is put.
fn put_once(overlay: &mut Overlay, i: u32, v: u32, entry: (i64, i64)) -> Result<(), Memory>
    requires lanes { overlay.old.lanes ≡ 1 }
    requires iteration { i ≤ overlay.old.cut }
    requires vertex { v < overlay.old.vertices }
    ensures same { overlay.new ≡ record overlay.old { puts = overlay.new.puts } }
    ensures here { OnOk result (IsSome (put_at overlay.new.puts i v)) }
    ensures others { OnOk result ((j u : ℕ) → IsSome (put_at overlay.old.puts j u)
        → IsSome (put_at overlay.new.puts j u)) }
{
    if overlay.has(i, v) {
        return Ok(());
    }
    overlay.put(i, v, one(entry.0), one(entry.1))?;
    Ok(())
}

// Puts new entries for some vertices at an iteration and for all new ones, and appends the row that
// comes of it.
fn put_row(
    overlay: &mut Overlay,
    i: u32,
    old: u32,
    entries: &[(i64, i64)],
    laid: &mut Vec<(i64, i64)>,
    state: &mut u64,
) -> Result<(), Memory>
    requires lanes { overlay.old.lanes ≡ 1 }
    requires iteration { i ≤ overlay.old.cut }
    ensures same { overlay.new ≡ record overlay.old { puts = overlay.new.puts } }
    ensures here { OnOk result ((u : ℕ) → old ≤ u → u < overlay.old.vertices
        → IsSome (put_at overlay.new.puts i u)) }
    ensures others { OnOk result ((j u : ℕ) → IsSome (put_at overlay.old.puts j u)
        → IsSome (put_at overlay.new.puts j u)) }
{
    for v in 0..overlay.vertices() {
        if v < old && draw(state) % 3 != 0 {
            let was = entries.get(place(old, i, v)).copied();
            laid.push(was.unwrap_or((7, 7)))?;
            continue;
        }
        let entry = drawn(state);
        put_once(overlay, i, v, entry)?;
        laid.push(entry)?;
    }
    Ok(())
}

// The rows that come of random puts, all new vertices among them.
fn put_all(
    alloc: Global,
    overlay: &mut Overlay,
    old: u32,
    entries: &[(i64, i64)],
    state: &mut u64,
) -> Result<Vec<(i64, i64)>, Memory>
    requires lanes { overlay.old.lanes ≡ 1 }
    requires cut { overlay.old.cut ≡ CUT }
    requires old { old ≡ overlay.old.old_vertices }
    ensures same { overlay.new ≡ record overlay.old { puts = overlay.new.puts } }
    ensures new { OnOk result (NewArePut overlay.new) }
{
    let mut laid = Vec::new(alloc);
    for i in 0..CUT + 1 {
        put_row(overlay, i, old, entries, &mut laid, state)?;
    }
    Ok(laid)
}

// Both histories have these entries, and keep as many of each vertex.
fn compare(rt: &impl Abort, history: &History, anew: &History, entries: &[(i64, i64)])
    requires cut { history.now.cut ≡ CUT }
    requires lanes { history.now.lanes ≡ 1 }
{
    let vertices = history.vertices();
    assert_eq!(rt; anew.vertices(), vertices);
    assert_eq!(rt; anew.kept(), history.kept());
    for v in 0..vertices {
        assert_eq!(rt; history.length(v), anew.length(v));
        for i in 0..CUT + 1 {
            let read = (history.agg(i, v, 0), history.val(i, v, 0));
            assert_eq!(rt; entries.get(place(vertices, i, v)).copied(), Some(read));
        }
    }
}

#[test]
fn commits_are_as_made_anew(rt: HostRuntime) -> Result<(), Fail> {
    let alloc = rt.alloc();
    let mut state = 7;
    for vertical in [true, false] {
        let mut entries = Vec::new(alloc);
        for _ in 0..3 * (CUT + 1) {
            entries.push(drawn(&mut state))?;
        }
        let mut history = history_of(&rt, alloc, 3, &entries, CUT, vertical)?;
        for _ in 0..4 {
            let old = history.vertices();
            assert!(rt; 0 < old && old < 100);
            let vertices = old + (draw(&mut state) % 3) as u32;
            let mut overlay = Overlay::new(alloc, old, vertices, 1, CUT)?;
            entries = put_all(alloc, &mut overlay, old, &entries, &mut state)?;
            history.reserve(&overlay)?;
            history.commit(overlay);
            let anew = history_of(&rt, alloc, vertices, &entries, CUT, vertical)?;
            compare(&rt, &history, &anew, &entries);
        }
    }
    Ok(())
}
