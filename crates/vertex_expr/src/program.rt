// Programs.
ghost use Rattle.std.specs.Prelude.{◌≡◌, ◌<◌, [], ◌∷◌, ◌++◌, length, map, OnOk, OnErr, slice_get};
ghost use Rattle.vertex_expr.specs.Node.{tree_of};
ghost use Rattle.vertex_expr.specs.Writable.{IsWritable};

use crate::expr::Expr;
use bolt_base::{Bytes, Items, Limits, Memory};
use std::alloc::Global;
use std::marker::Model;

/// How the contributions to a vertex are combined, and what they come to where there is none.
#[derive(Clone, Copy, Debug, PartialEq, Eq)]
pub enum Combine {
    /// Their sum, from 0.
    Sum,
    /// The least of `empty` and all of them.
    Min { empty: i64 },
    /// The greatest of `empty` and all of them.
    Max { empty: i64 },
}

/// A number with a name.
#[derive(Debug, Drop)]
pub struct NamedParam {
    pub name: Bytes,
    pub value: i64,
}

/// The range of a lane's values, both ends included.
#[derive(Clone, Copy, Debug, PartialEq, Eq)]
pub struct LaneRange {
    pub lo: i64,
    pub hi: i64,
}

/// The params of a program. `Expr::Param(k)` is the one at place `k`.
pub type ParamList = Items<NamedParam>;
/// The ranges of a program's lanes.
pub type RangeList = Items<LaneRange>;

/// Expressions, one for each lane. Contracts see them as trees.
#[derive(Drop)]
pub struct ExprList {
    exprs: Vec<Expr>,
}

impl Model for ExprList {
    ghost use Rattle.std.specs.Prelude.{List, map};
    ghost use Rattle.std.specs.Coded.{coded_list};
    ghost use Rattle.vertex_expr.specs.Tree.{Tree};
    ghost use Rattle.vertex_expr.specs.TreeCode.{coded_tree};
    ghost use Rattle.vertex_expr.specs.Node.{tree_of};

    ghost Value = { List Tree };

    ghost coded = { coded_list coded_tree };

    ghost view = { λ l. map tree_of l.exprs.items };
}

impl ExprList {
    /// The empty list.
    pub fn new(alloc: Global) -> Self
        ensures empty { result ≡ [] }
    {
        ExprList {
            exprs: Vec::new(alloc),
        }
    }

    /// The number of expressions.
    pub fn len(&self) -> usize
        ensures value { result ≡ length self.now }
    {
        self.exprs.len()
    }

    /// The expressions, lane by lane.
    pub fn as_slice(&self) -> &[Expr]
        ensures trees { map tree_of result.now ≡ self.now }
    {
        self.exprs.as_slice()
    }

    /// The expression of a lane.
    #[inline]
    pub fn at(&self, lane: u32) -> &Expr
        requires lane { lane < length self.now }
        ensures tree { slice_get self.now lane ≡ Some (tree_of result.now) }
    {
        &self.exprs[lane as usize]
    }

    /// The list is unchanged after `Memory`.
    pub fn push(&mut self, expr: Expr) -> Result<(), Memory>
        ensures ok { OnOk result (self.new ≡ self.old ++ tree_of expr ∷ []) }
        ensures err { OnErr result (self.new ≡ self.old) }
    {
        self.exprs.push(expr)?;
        Ok(())
    }
}

/// What the entries of a program's text say. The ranges and the last three lists have one item per
/// lane.
#[derive(Drop)]
pub struct ProgramEntries {
    pub name: Bytes,
    pub limits: Limits,
    pub rounds: u32,
    pub combine: Combine,
    pub params: ParamList,
    pub ranges: RangeList,
    pub init: ExprList,
    pub contribute: ExprList,
    pub apply: ExprList,
}

/// A program. It holds only names, numbers and expressions that a text can have. Contracts see it
/// as its entries.
#[derive(Drop)]
pub struct Program {
    entries: ProgramEntries,
}

impl Model for Program {
    ghost use Rattle.vertex_expr.specs.declared.program.ProgramEntries.{ProgramEntries};
    ghost use Rattle.vertex_expr.specs.contracts.program.ProgramEntries.{the_row};
    ghost use Rattle.vertex_expr.specs.Writable.{IsWritable};

    ghost Value = { ProgramEntries };

    ghost coded = { the_row.coded };

    ghost view = { λ p. p.entries };

    ghost invariant = { λ p. IsWritable p.entries };
}

impl Program {
    /// The program with these entries.
    pub fn new(entries: ProgramEntries) -> Program
        requires writable { IsWritable entries }
        ensures entries { result ≡ entries }
    {
        Program { entries }
    }

    /// What the program holds.
    #[inline]
    pub fn entries(&self) -> &ProgramEntries
        ensures entries { result.now ≡ self.now }
        ensures writable { IsWritable self.now }
    {
        &self.entries
    }
}
