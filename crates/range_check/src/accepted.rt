// Accepted programs.
ghost use Rattle.std.specs.Prelude.{◌≡◌, ◌<◌, ◌≤◌, None, length};
ghost use Rattle.vertex_expr.specs.Node.{tree_of};
ghost use Rattle.vertex_expr.specs.ProgramBounds.{aggregated, spans_in};
ghost use Rattle.vertex_expr.specs.Tree.{nodes};
ghost use Rattle.range_check.specs.Breaks.{IsAccepted};
ghost use Rattle.range_check.specs.Laws.{span_at};
ghost use Rattle.range_check.specs.Walk.{IsKnownIn, IsScope, box_in, first_in};

use crate::interval::Interval;
use crate::lanes::IntervalList;
use crate::scope::Scope;
use crate::walk::walk;
use std::marker::Model;
use vertex_expr::{Expr, Part, Program};

/// A program that is safe on every graph within its limits. Contracts see it as the program's
/// entries.
#[derive(Drop)]
pub struct Accepted {
    program: Program,
    aggregates: IntervalList,
}

impl Model for Accepted {
    ghost use Rattle.std.specs.Prelude.{◌≡◌};
    ghost use Rattle.vertex_expr.specs.declared.program.ProgramEntries.{ProgramEntries};
    ghost use Rattle.vertex_expr.specs.contracts.program.ProgramEntries.{the_row};
    ghost use Rattle.vertex_expr.specs.ProgramBounds.{aggregated};
    ghost use Rattle.range_check.specs.Breaks.{IsAccepted};

    ghost Value = { ProgramEntries };

    ghost coded = { the_row.coded };

    ghost view = { λ a. a.program };

    ghost invariant = { λ a. IsAccepted a.program × (a.aggregates ≡ aggregated a.program) };
}

impl Accepted {
    /// The program, whose aggregates have these intervals.
    pub(crate) fn new(program: Program, aggregates: IntervalList) -> Accepted
        requires accepted { IsAccepted program }
        requires aggregates { aggregates ≡ aggregated program }
        ensures program { result ≡ program }
    {
        Accepted {
            program,
            aggregates,
        }
    }

    /// The program.
    #[inline]
    pub fn program(&self) -> &Program
        ensures program { result.now ≡ self.now }
        ensures accepted { IsAccepted self.now }
    {
        let _aggregates = &self.aggregates;
        &self.program
    }
}

/// The least and the greatest number of the interval of the part's expression for the lane, or of
/// the lane's aggregate.
pub fn bounds(accepted: &Accepted, part: Part, lane: u32) -> (i128, i128)
    requires lane { lane < length accepted.now.ranges }
    ensures low { result.0 ≡ (span_at (spans_in accepted.now part) lane).low }
    ensures high { result.1 ≡ (span_at (spans_in accepted.now part) lane).high }
{
    let entries = accepted.program.entries();
    let aggregates = accepted.aggregates.as_slice();
    match part {
        Part::Init => {
            let scope = Scope {
                part,
                entries,
                aggregates: &[],
            };
            ends(entries.init.at(lane), &scope)
        }
        Part::Contribute => {
            let scope = Scope {
                part,
                entries,
                aggregates: &[],
            };
            ends(entries.contribute.at(lane), &scope)
        }
        Part::Aggregate => {
            let span = aggregates[lane as usize];
            (span.low(), span.high())
        }
        Part::Apply => {
            let scope = Scope {
                part,
                entries,
                aggregates,
            };
            ends(entries.apply.at(lane), &scope)
        }
    }
}

// The ends of the interval of an expression without a break.
fn ends(expr: &Expr, scope: &Scope) -> (i128, i128)
    requires scope { IsScope scope.now.entries.now scope.now.part scope.now.aggregates.now }
    requires known { IsKnownIn scope.now.entries.now scope.now.part (tree_of expr.now) }
    requires few { nodes (tree_of expr.now) ≤ 256 }
    requires unbroken { first_in scope.now.entries.now scope.now.part 0 (tree_of expr.now) ≡ None }
    ensures low { result.0 ≡ (box_in scope.now.entries.now scope.now.part (tree_of expr.now)).low }
    ensures high { result.1
        ≡ (box_in scope.now.entries.now scope.now.part (tree_of expr.now)).high }
{
    match walk(expr, scope, 0) {
        Ok(walked) => (walked.span.low(), walked.span.high()),
        Err(_) => unreachable!(),
    }
}
