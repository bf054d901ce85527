// Expressions in a line.
ghost use Rattle.std.specs.Prelude.{◌≡◌, ◌≤◌, ◌<◌, ◌^◌, length, drop, IfOk};
ghost use Rattle.text_words.specs.Tokens.{tokens_from};
ghost use Rattle.text_words.specs.Says.{Says};
ghost use Rattle.vertex_expr.specs.Node.{tree_of};
ghost use Rattle.vertex_expr.specs.Writable.{IsTextTree};
ghost use Rattle.expr_text.specs.Scoped.{scope_of};
ghost use Rattle.expr_text.specs.Reading.{start as start_of};
ghost use Rattle.expr_text.specs.Expressions.{read_tokens as read_tokens_of, expression_at};
ghost use Rattle.expr_text.specs.Expressions.{closed_whole, refusal as refusal_of};

use crate::frames::product_of;
use crate::reading::{Cause, Due, Fault, Frame, Place, Reading};
use crate::scope::Scope;
use crate::stack::Stack;
use crate::steps::step;
use std::alloc::Global;
use text_words::{LangError, next_token};
use vertex_expr::{Expr, Operand, is_shallow};

fn start(alloc: Global) -> Reading
    ensures { result ≡ start_of }
{
    Reading {
        nodes: 0,
        top: Frame {
            place: Place::Whole,
            sum: None,
            product: None,
        },
        below: Stack::new(alloc),
        due: Due::Primary,
    }
}

fn refusal(cause: Cause, at: usize) -> LangError
    requires { at < 2 ^ 32 }
    ensures { result ≡ refusal_of cause at }
{
    let at = at as u32;
    match cause {
        Cause::Syntax => LangError::Syntax { at },
        Cause::Unknown => LangError::Unknown { at },
        Cause::TooBig => LangError::TooBig { at },
    }
}

fn finished(alloc: Global, reading: Reading, end: usize) -> Result<Operand, LangError>
    requires { end < 2 ^ 32 }
    ensures { Says (λ t. t) result (closed_whole reading.top reading.below reading.due end) }
{
    let Reading {
        nodes: _nodes,
        top,
        below,
        due,
    } = reading;
    let Frame {
        place: _place,
        sum,
        product: _product,
    } = top;
    let Due::Operator(last) = due else {
        return Err(LangError::Syntax { at: end as u32 });
    };
    if below.len() != 0 {
        return Err(LangError::Syntax { at: end as u32 });
    }
    Ok(product_of(alloc, sum, last)?)
}

fn read_tokens(alloc: Global, scope: &Scope, line: &[u8], from: usize) -> Result<Operand, LangError>
    requires few { length scope.now.params.now ≤ 64 }
    requires within { from ≤ length line.now }
    requires short { length line.now < 2 ^ 32 }
    ensures { Says (λ t. t) result (read_tokens_of (scope_of scope.now) (length line.now) start_of
        (tokens_from 0 from (drop from line.now))) }
{
    let mut reading = start(alloc);
    let mut at = from;
    'tokens: while let Some(found) = next_token(line, at) {
        match step(alloc, scope, reading, &found.token) {
            Ok(next) => reading = next,
            Err(Fault::Memory) => return Err(LangError::Memory),
            Err(Fault::Refused(cause)) => return Err(refusal(cause, found.at)),
        }
        at = found.next;
    }
    finished(alloc, reading, line.len())
}

/// The expression that stands in a line from a place on, and takes the line to its end.
#[tactic(auto, unfolding(crate::specs::Expressions::expression, crate::specs::Expressions::expression_at))]
pub fn read_expression(
    alloc: Global,
    scope: &Scope,
    line: &[u8],
    from: usize,
) -> Result<Expr, LangError>
    requires few { length scope.now.params.now ≤ 64 }
    requires within { from ≤ length line.now }
    requires short { length line.now < 2 ^ 32 }
    ensures says { Says (λ e. tree_of e) result (expression_at (scope_of scope.now) line.now from) }
    ensures fits { IfOk result (λ e. IsTextTree (scope_of scope.now) (tree_of e)) }
{
    let first = match next_token(line, from) {
        None => line.len(),
        Some(found) => found.at,
    };
    let tree = read_tokens(alloc, scope, line, from)?;
    if is_shallow(tree.get(), 32) {
        Ok(tree.into_expr())
    } else {
        Err(LangError::TooBig { at: first as u32 })
    }
}
