// Where an expression stands, and what words mean there.
ghost use Rattle.std.specs.Prelude.{◌≡◌, ◌≤◌, length, position};
ghost use Rattle.std.specs.Str.{bytes_eq};
ghost use Rattle.vertex_expr.specs.Writable.{names_of};
ghost use Rattle.expr_text.specs.Reading.{meaning_of as meaning_in};
ghost use Rattle.expr_text.specs.Reading.{in_contribute as contribute_meaning};
ghost use Rattle.expr_text.specs.Reading.{in_apply as apply_meaning};
ghost use Rattle.expr_text.specs.Scoped.{scope_of, means};

use crate::reading::{Call, Lane};
use vertex_expr::{Expr, NamedParam, Part};

/// Where an expression stands: its part, how many lanes the program has, and its params.
#[derive(Clone, Copy, Debug)]
pub struct Scope<'a> {
    pub part: Part,
    pub lanes: u32,
    pub params: &'a [NamedParam],
}

/// What a word means where an operand is due.
#[derive(Drop)]
pub enum Meaning {
    Leaf(Expr),
    OfLane(Lane),
    OfCall(Call),
    Nothing,
}

fn param_at(params: &[NamedParam], word: &[u8]) -> Option<usize>
    ensures { result ≡ position (λ param. bytes_eq param.name word.now) params.now }
{
    params
        .iter()
        .position(|param| param.name.as_slice() == word)
}

fn param_named(params: &[NamedParam], word: &[u8]) -> Option<usize>
    ensures { result ≡ position (λ name. bytes_eq name word.now) (names_of params.now) }
{
    param_at(params, word)
}

#[tactic(auto, unfolding(crate::specs::Reading::meaning_of))]
pub fn meaning_of(scope: &Scope, word: &[u8]) -> Meaning
    requires { length scope.now.params.now ≤ 64 }
    ensures { means result ≡ meaning_in (scope_of scope.now) word.now }
{
    if word == b"min".as_slice() {
        Meaning::OfCall(Call::Min)
    } else if word == b"max".as_slice() {
        Meaning::OfCall(Call::Max)
    } else if word == b"clamp".as_slice() {
        Meaning::OfCall(Call::Clamp)
    } else if word == b"if".as_slice() {
        Meaning::OfCall(Call::If)
    } else if word == b"attr".as_slice() {
        Meaning::Leaf(Expr::Attr)
    } else if word == b"id".as_slice() {
        Meaning::Leaf(Expr::Id)
    } else if word == b"val".as_slice() {
        in_contribute(scope.part, Meaning::OfLane(Lane::Val))
    } else if word == b"outdeg".as_slice() {
        in_contribute(scope.part, Meaning::Leaf(Expr::Outdeg))
    } else if word == b"weight".as_slice() {
        in_contribute(scope.part, Meaning::Leaf(Expr::Weight))
    } else if word == b"agg".as_slice() {
        in_apply(scope.part, Meaning::OfLane(Lane::Agg))
    } else if word == b"old".as_slice() {
        in_apply(scope.part, Meaning::OfLane(Lane::Old))
    } else {
        match param_named(scope.params, word) {
            None => Meaning::Nothing,
            Some(k) => Meaning::Leaf(Expr::Param(k as u32)),
        }
    }
}

fn in_contribute(part: Part, meaning: Meaning) -> Meaning
    ensures { means result ≡ contribute_meaning part (means meaning) }
{
    match part {
        Part::Contribute => meaning,
        _ => Meaning::Nothing,
    }
}

fn in_apply(part: Part, meaning: Meaning) -> Meaning
    ensures { means result ≡ apply_meaning part (means meaning) }
{
    match part {
        Part::Apply => meaning,
        _ => Meaning::Nothing,
    }
}
