// What one item adds.
ghost use Rattle.std.specs.Prelude.{◌≡◌, ℕ, ◌+◌, ◌*◌, ◌^◌, ◌<◌, ◌≤◌, min, true, false, length};
ghost use Rattle.std.specs.Prelude.{take, drop, List, [], ◌∷◌, ◌++◌};
ghost use Rattle.bolt_base.specs.Graph.{IsBetween, vertices};
ghost use Rattle.bolt_base.specs.Residue.{Amount};
ghost use Rattle.agg_words.specs.View.{View};
ghost use Rattle.run_model.specs.Additions.{amounts_of};
ghost use Rattle.run_model.specs.Program.{lanes};
ghost use Rattle.edge_map.specs.Additions.{source_at, removed_gift, added_gift, change_gift, gifts};
ghost use Rattle.edge_map.specs.Additions.{adds_of_gifts, ends_of_gifts, visits};
ghost use Rattle.edge_map.specs.Grew.{Grew, AreMarked, HasPlace};
ghost use Rattle.edge_map.specs.Plans.{IsReady, IsPlan};
ghost use Rattle.edge_map.specs.Ready.{HasRoom};
ghost use Rattle.edge_map.specs.Walks.{IsDelta, IsWork, begins};
ghost use Rattle.edge_map.specs.declared.tasks.Work.TheVariants.{Dirty};

use crate::contributions::{now, was};
use crate::give::{give, less};
use crate::tasks::{Plan, TaskEdge, Work};
use adjacency::{Metered, Near};
use agg_words::{AggSeat, AggWords};
use bolt_base::{Edge, Lanes, Meter};

// Minus the old contribution of a removed edge.
fn make_removed(
    plan: &Plan,
    words: &AggWords,
    seat: &mut AggSeat,
    x: TaskEdge,
    targets: &mut [u32],
    count: usize,
) -> usize
    requires table { seat.old.table ≡ words.now.table }
    requires unit { 1 ≤ seat.old.view.units }
    requires words { (x.edge.dst + 1) * lanes plan.now.program.now ≤ words.now.layout.words }
    requires bit { x.edge.dst < words.now.layout.bits }
    requires room { HasPlace seat.old.view x.edge.dst count targets.old }
    requires ready { IsReady plan.now }
    requires place { x.source < length plan.now.tasks.now.sources }
    requires edges { 1 ≤ (source_at plan.now.tasks.now x.source).old_degree }
    requires weight { IsBetween plan.now.program.now.limits.weight_lo
        plan.now.program.now.limits.weight_hi x.edge.weight }
    ensures table { seat.new.table ≡ seat.old.table }
    ensures units { seat.new.view.units ≡ seat.old.view.units }
    ensures count { (count ≤ result) × (result ≤ count + 1) }
    ensures grew { (start : View) (more : List Amount) (ends : List ℕ)
        → Grew start seat.old.view more ends (take count targets.old)
        → Grew start seat.new.view
        (more ++ amounts_of plan.now.program.now
        (removed_gift plan.now.program.now plan.now.tasks.now x))
        (ends ++ x.edge.dst ∷ []) (take result targets.new) }
    ensures marked { (n : ℕ) → x.edge.dst < n → AreMarked n seat.old.view count targets.old
        → AreMarked n seat.new.view result targets.new }
{
    let numbers = was(plan, x.source, x.edge.weight);
    let zeros = Lanes::zeros(numbers.width());
    let amounts = less(&zeros, &numbers);
    give(words, seat, x.edge.dst, &amounts, targets, count)
}

// The new contribution of an added edge.
fn make_added(
    plan: &Plan,
    words: &AggWords,
    seat: &mut AggSeat,
    x: TaskEdge,
    targets: &mut [u32],
    count: usize,
) -> usize
    requires table { seat.old.table ≡ words.now.table }
    requires unit { 1 ≤ seat.old.view.units }
    requires words { (x.edge.dst + 1) * lanes plan.now.program.now ≤ words.now.layout.words }
    requires bit { x.edge.dst < words.now.layout.bits }
    requires room { HasPlace seat.old.view x.edge.dst count targets.old }
    requires ready { IsReady plan.now }
    requires place { x.source < length plan.now.tasks.now.sources }
    requires edges { 1 ≤ (source_at plan.now.tasks.now x.source).new_degree }
    requires weight { IsBetween plan.now.program.now.limits.weight_lo
        plan.now.program.now.limits.weight_hi x.edge.weight }
    ensures table { seat.new.table ≡ seat.old.table }
    ensures units { seat.new.view.units ≡ seat.old.view.units }
    ensures count { (count ≤ result) × (result ≤ count + 1) }
    ensures grew { (start : View) (more : List Amount) (ends : List ℕ)
        → Grew start seat.old.view more ends (take count targets.old)
        → Grew start seat.new.view
        (more ++ amounts_of plan.now.program.now
        (added_gift plan.now.program.now plan.now.tasks.now x))
        (ends ++ x.edge.dst ∷ []) (take result targets.new) }
    ensures marked { (n : ℕ) → x.edge.dst < n → AreMarked n seat.old.view count targets.old
        → AreMarked n seat.new.view result targets.new }
{
    let amounts = now(plan, x.source, x.edge.weight);
    give(words, seat, x.edge.dst, &amounts, targets, count)
}

// The new contribution of any edge out of a source less the old one, where no lane reads a weight.
fn delta(plan: &Plan, place: u32) -> Lanes
    requires ready { IsReady plan.now }
    requires place { place < length plan.now.tasks.now.sources }
    ensures { plan.now.by_edge ≡ false → 1 ≤ (source_at plan.now.tasks.now place).old_degree
        → 1 ≤ (source_at plan.now.tasks.now place).new_degree
        → IsDelta plan.now.program.now (source_at plan.now.tasks.now place)
        plan.now.program.now.limits.weight_lo result }
{
    let side = plan.sides[place as usize];
    less(&side.now, &side.was)
}

// The new contribution of an edge of this weight out of a source less the old one.
#[inline(never)]
fn change(plan: &Plan, place: u32, weight: i64) -> Lanes
    requires ready { IsReady plan.now }
    requires place { place < length plan.now.tasks.now.sources }
    requires had { 1 ≤ (source_at plan.now.tasks.now place).old_degree }
    requires has { 1 ≤ (source_at plan.now.tasks.now place).new_degree }
    requires weight { IsBetween plan.now.program.now.limits.weight_lo
        plan.now.program.now.limits.weight_hi weight }
    ensures { IsDelta plan.now.program.now (source_at plan.now.tasks.now place) weight result }
{
    let new = now(plan, place, weight);
    let old = was(plan, place, weight);
    less(&new, &old)
}

// What an edge out of a dirty source gives. Where no lane reads a weight, it is `same`.
fn make_change(
    plan: &Plan,
    words: &AggWords,
    seat: &mut AggSeat,
    place: u32,
    same: &Lanes,
    e: Edge,
    targets: &mut [u32],
    count: usize,
) -> usize
    requires table { seat.old.table ≡ words.now.table }
    requires unit { 1 ≤ seat.old.view.units }
    requires words { (e.dst + 1) * lanes plan.now.program.now ≤ words.now.layout.words }
    requires bit { e.dst < words.now.layout.bits }
    requires room { HasPlace seat.old.view e.dst count targets.old }
    requires ready { IsReady plan.now }
    requires place { place < length plan.now.tasks.now.sources }
    requires had { 1 ≤ (source_at plan.now.tasks.now place).old_degree }
    requires has { 1 ≤ (source_at plan.now.tasks.now place).new_degree }
    requires weight { IsBetween plan.now.program.now.limits.weight_lo
        plan.now.program.now.limits.weight_hi e.weight }
    requires same { plan.now.by_edge ≡ false
        → IsDelta plan.now.program.now (source_at plan.now.tasks.now place)
        plan.now.program.now.limits.weight_lo same.now }
    ensures table { seat.new.table ≡ seat.old.table }
    ensures units { seat.new.view.units ≡ seat.old.view.units }
    ensures count { (count ≤ result) × (result ≤ count + 1) }
    ensures grew { (start : View) (more : List Amount) (ends : List ℕ)
        → Grew start seat.old.view more ends (take count targets.old)
        → Grew start seat.new.view
        (more ++ amounts_of plan.now.program.now
        (change_gift plan.now.program.now (source_at plan.now.tasks.now place) e))
        (ends ++ e.dst ∷ []) (take result targets.new) }
    ensures marked { (n : ℕ) → e.dst < n → AreMarked n seat.old.view count targets.old
        → AreMarked n seat.new.view result targets.new }
{
    if plan.by_edge {
        let amounts = change(plan, place, e.weight);
        return give(words, seat, e.dst, &amounts, targets, count);
    }
    give(words, seat, e.dst, same, targets, count)
}

// Whether the added edges from `next` on begin with one of this source that ends at `dst`.
fn is_next(added: &[TaskEdge], next: usize, place: u32, dst: u32) -> bool
    ensures { result ≡ begins place dst (drop next added.now) }
{
    next < added.len() && added[next].source == place && added[next].edge.dst == dst
}

// For each edge out of a dirty source that stayed, the new contribution less the old one.
fn make_dirty<A: Metered<M>, M: Meter>(
    graph: &A,
    plan: &Plan,
    words: &AggWords,
    seat: &mut AggSeat,
    meter: &mut M,
    place: u32,
    targets: &mut [u32],
    count: usize,
) -> usize
    requires table { seat.old.table ≡ words.now.table }
    requires unit { 1 ≤ seat.old.view.units }
    requires plan { IsPlan (A.plain graph.now) plan.now }
    requires words { HasRoom plan.now.program.now (A.plain graph.now) words.now.layout.words
        words.now.layout.bits }
    requires place { place < length plan.now.tasks.now.sources }
    requires dirty { (source_at plan.now.tasks.now place).dirty ≡ true }
    requires room { min (vertices (A.plain graph.now))
        (count + (source_at plan.now.tasks.now place).new_degree) ≤ length targets.old }
    requires marked { AreMarked (vertices (A.plain graph.now)) seat.old.view count targets.old }
    requires visits { M.counted meter.old + (source_at plan.now.tasks.now place).new_degree < 2 ^
        64 }
    ensures table { seat.new.table ≡ seat.old.table }
    ensures units { seat.new.view.units ≡ seat.old.view.units }
    ensures held { M.held meter.new ≡ M.held meter.old }
    ensures visits { M.counted meter.new
        ≡ M.counted meter.old + (source_at plan.now.tasks.now place).new_degree }
    ensures count { (count ≤ result)
        × (result ≤ count + (source_at plan.now.tasks.now place).new_degree) }
    ensures grew { (start : View) (more : List Amount) (ends : List ℕ)
        → Grew start seat.old.view more ends (take count targets.old)
        → Grew start seat.new.view
        (more ++ adds_of_gifts plan.now.program.now
        (gifts plan.now.program.now (A.plain graph.now) plan.now.tasks.now
        (Dirty place)))
        (ends ++ ends_of_gifts
        (gifts plan.now.program.now (A.plain graph.now) plan.now.tasks.now
        (Dirty place))) (take result targets.new) }
    ensures marked { AreMarked (vertices (A.plain graph.now)) seat.new.view result targets.new }
{
    let source = plan.tasks.sources.as_slice()[place as usize];
    let added = plan.tasks.added.as_slice();
    let same = delta(plan, place);
    let mut next = plan.sides[place as usize].first_added;
    let mut near = Near::new();
    let mut total = count;
    for k in 0..source.new_degree {
        let e = graph.out_edge_near(source.vertex, k, &mut near, meter);
        if is_next(added, next, place, e.dst) {
            next += 1;
        } else {
            total = make_change(plan, words, seat, place, &same, e, targets, total);
        }
    }
    total
}

/// What one item adds. Its targets are put behind the `count` targets.
pub(crate) fn make<A: Metered<M>, M: Meter>(
    graph: &A,
    plan: &Plan,
    words: &AggWords,
    seat: &mut AggSeat,
    meter: &mut M,
    work: Work,
    targets: &mut [u32],
    count: usize,
) -> usize
    requires table { seat.old.table ≡ words.now.table }
    requires unit { 1 ≤ seat.old.view.units }
    requires plan { IsPlan (A.plain graph.now) plan.now }
    requires words { HasRoom plan.now.program.now (A.plain graph.now) words.now.layout.words
        words.now.layout.bits }
    requires work { IsWork plan.now.program.now (A.plain graph.now) plan.now.tasks.now work }
    requires room { min (vertices (A.plain graph.now)) (count + visits plan.now.tasks.now work) ≤
        length targets.old }
    requires marked { AreMarked (vertices (A.plain graph.now)) seat.old.view count targets.old }
    requires visits { M.counted meter.old + visits plan.now.tasks.now work < 2 ^ 64 }
    ensures table { seat.new.table ≡ seat.old.table }
    ensures units { seat.new.view.units ≡ seat.old.view.units }
    ensures held { M.held meter.new ≡ M.held meter.old }
    ensures visits { M.counted meter.new ≡ M.counted meter.old + visits plan.now.tasks.now work }
    ensures count { (count ≤ result) × (result ≤ count + visits plan.now.tasks.now work) }
    ensures grew { (start : View) (more : List Amount) (ends : List ℕ)
        → Grew start seat.old.view more ends (take count targets.old)
        → Grew start seat.new.view
        (more ++ adds_of_gifts plan.now.program.now
        (gifts plan.now.program.now (A.plain graph.now) plan.now.tasks.now work))
        (ends ++ ends_of_gifts
        (gifts plan.now.program.now (A.plain graph.now) plan.now.tasks.now
        work)) (take result targets.new) }
    ensures marked { AreMarked (vertices (A.plain graph.now)) seat.new.view result targets.new }
{
    match work {
        Work::Removed(x) => {
            meter.tick();
            make_removed(plan, words, seat, x, targets, count)
        }
        Work::Added(x) => {
            meter.tick();
            make_added(plan, words, seat, x, targets, count)
        }
        Work::Dirty(place) => { make_dirty(graph, plan, words, seat, meter, place, targets, count) }
    }
}
