// The additions of an iteration, piece by piece.
ghost use Rattle.std.specs.Prelude.{◌≡◌, ◌≤◌, map, IfOk};
ghost use Rattle.std.specs.List.{range_with_len};
ghost use Rattle.bolt_base.specs.Graph.{Graph as Plain, IsGood, vertices};
ghost use Rattle.bolt_base.specs.Pieces.{cut, piece};
ghost use Rattle.run_model.specs.Program.{is_sum};
ghost use Rattle.core_model.specs.Iterations.{all_left, in_pieces};

use crate::addition::{AdditionList, PieceList};
use crate::iteration::adds_due;
use adjacency::Metered;
use bolt_base::{Choice, Items, Memory, VisitMeter};
use range_check::Accepted;
use std::alloc::Global;
use vertex_expr::{Combine, Program};

// The additions of some items, one after the other.
fn concatenated(alloc: Global, lists: &[AdditionList]) -> Result<AdditionList, Memory>
    ensures { IfOk result (λ all. all ≡ all_left lists.now) }
{
    let mut all = Items::new(alloc);
    for list in lists {
        all.extend_from_slice(list.as_slice())?;
    }
    Ok(all)
}

// Where a piece begins among so many items.
fn cut_at(piece: u32, total: usize, workers: u32) -> usize
    requires some { 1 ≤ workers }
    requires piece { piece ≤ workers }
    ensures value { result ≡ cut piece total workers }
    ensures within { result ≤ total }
{
    let begin = u128::from(piece) * total as u128 / u128::from(workers);
    begin as usize
}

// The additions of items, in as many pieces as there are workers.
fn pieces_of(alloc: Global, items: &[AdditionList], workers: u32) -> Result<PieceList, Memory>
    requires { 1 ≤ workers }
    ensures { IfOk result (λ pieces. pieces
        ≡ map (λ k. all_left (piece items.now workers k)) (range_with_len 0 workers)) }
{
    let mut pieces = Items::new(alloc);
    for k in 0..workers {
        let start = cut_at(k, items.len(), workers);
        let end = cut_at(k + 1, items.len(), workers);
        pieces.push(concatenated(alloc, &items[start..end])?)?;
    }
    Ok(pieces)
}

// Whether contributions are summed.
fn is_sum(program: &Program) -> bool
    ensures { result ≡ is_sum program.now.combine }
{
    match program.entries().combine {
        Combine::Sum => true,
        Combine::Min { .. } => false,
        Combine::Max { .. } => false,
    }
}

/// The additions of each piece of an iteration, from 1 on, from a graph to another one, with the
/// pieces of a choice. There are no pieces past the last iteration, nor where contributions aren't
/// summed. All values are computed anew, and no read of an edge is counted.
pub fn pieces_left<A: Metered<VisitMeter>>(
    alloc: Global,
    accepted: &Accepted,
    choice: Choice,
    old: &A,
    new: &A,
    iteration: u32,
) -> Result<PieceList, Memory>
    requires old { IsGood accepted.now.limits (A.plain old.now) }
    requires new { IsGood accepted.now.limits (A.plain new.now) }
    requires grown { vertices (A.plain old.now) ≤ vertices (A.plain new.now) }
    requires iteration { 1 ≤ iteration }
    requires cut { 1 ≤ choice.cut }
    requires workers { 1 ≤ choice.workers }
    ensures pieces { (opened : Plain) → IfOk result (λ left. left
        ≡ in_pieces (record { program = accepted.now; opened = opened; choice = choice })
        (A.plain old.now) (A.plain new.now) iteration) }
{
    let program = accepted.program();
    if !is_sum(program) || program.entries().rounds < iteration {
        return Ok(Items::new(alloc));
    }
    let items = adds_due(alloc, program, choice.cut, old, new, iteration)?;
    pieces_of(alloc, items.as_slice(), choice.workers)
}
