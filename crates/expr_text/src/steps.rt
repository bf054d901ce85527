// How an expression is read, a token at a time.
ghost use Rattle.std.specs.Prelude.{◌≡◌, ◌≤◌, length};
ghost use Rattle.text_words.specs.Seen.{seen};
ghost use Rattle.expr_text.specs.Gives.{Gives};
ghost use Rattle.expr_text.specs.Scoped.{scope_of, means};
ghost use Rattle.expr_text.specs.Reading.{step as step_of, named as named_of};
ghost use Rattle.expr_text.specs.Reading.{at_operand as operand_step, at_operand_number};
ghost use Rattle.expr_text.specs.Reading.{at_operand_negative, at_operator as operator_step};
ghost use Rattle.expr_text.specs.Reading.{at_index as index_step, is_mark as is_mark_of};

use crate::calls::{ended, first_of};
use crate::frames::{counted, opened, plus_next, taken, times_next};
use crate::reading::{Cause, Due, End, Factor, Fault, Lane, Place, Reading, Sign};
use crate::scope::{Meaning, Scope, meaning_of};
use std::alloc::Global;
use text_words::Token;
use vertex_expr::{Compare, Expr, Operand};

/// A word where an operand is due.
fn named(alloc: Global, reading: Reading, meaning: Meaning) -> Result<Reading, Fault>
    ensures { Gives result (named_of reading (means meaning)) }
{
    match meaning {
        Meaning::Leaf(expr) => {
            let reading = counted(reading)?;
            let leaf = Operand::new(alloc, expr)?;
            Ok(taken(alloc, reading, leaf)?)
        }
        Meaning::OfLane(lane) => {
            let Reading {
                nodes,
                top,
                below,
                due: _due,
            } = counted(reading)?;
            Ok(Reading {
                nodes,
                top,
                below,
                due: Due::OpenBracket(lane),
            })
        }
        Meaning::OfCall(call) => {
            let Reading {
                nodes,
                top,
                below,
                due: _due,
            } = counted(reading)?;
            Ok(Reading {
                nodes,
                top,
                below,
                due: Due::OpenParen(call),
            })
        }
        Meaning::Nothing => Err(Fault::Refused(Cause::Unknown)),
    }
}

/// A number where an operand is due.
fn numeral(alloc: Global, reading: Reading, number: u64) -> Result<Reading, Fault>
    ensures { Gives result (at_operand_number reading number) }
{
    let reading = counted(reading)?;
    if number < 1 << 63 {
        let leaf = Operand::new(alloc, Expr::Literal(number.cast_signed()))?;
        Ok(taken(alloc, reading, leaf)?)
    } else {
        Err(Fault::Refused(Cause::TooBig))
    }
}

/// A `-` with a number directly behind it where an operand is due.
fn negative(alloc: Global, reading: Reading, number: u64) -> Result<Reading, Fault>
    ensures { Gives result (at_operand_negative reading number) }
{
    let Reading {
        nodes,
        top,
        below,
        due: _due,
    } = counted(reading)?;
    if number <= 1 << 63 {
        let leaf = Operand::new(alloc, Expr::Literal(number.wrapping_neg().cast_signed()))?;
        Ok(Reading {
            nodes,
            top,
            below,
            due: Due::Digits(leaf),
        })
    } else {
        Err(Fault::Refused(Cause::TooBig))
    }
}

/// A token where an operand is due.
fn at_operand(
    alloc: Global,
    scope: &Scope,
    reading: Reading,
    token: &Token,
) -> Result<Reading, Fault>
    requires { length scope.now.params.now ≤ 64 }
    ensures { Gives result (operand_step (scope_of scope.now) reading (seen token.now)) }
{
    match token {
        Token::Number(n) => numeral(alloc, reading, *n),
        Token::Dash(None) => Err(Fault::Refused(Cause::Syntax)),
        Token::Dash(Some(n)) => negative(alloc, reading, *n),
        Token::Word(word) => named(alloc, reading, meaning_of(scope, word)),
        Token::AtMost => Err(Fault::Refused(Cause::Syntax)),
        Token::Mark(b) => {
            if *b == b'(' {
                opened(reading, Place::Group)
            } else {
                Err(Fault::Refused(Cause::Syntax))
            }
        }
    }
}

/// A token behind an operand.
fn at_operator(
    alloc: Global,
    reading: Reading,
    last: Operand,
    token: &Token,
) -> Result<Reading, Fault>
    ensures { Gives result (operator_step reading last (seen token.now)) }
{
    match token {
        Token::Number(_) => Err(Fault::Refused(Cause::Syntax)),
        Token::Word(_) => Err(Fault::Refused(Cause::Syntax)),
        Token::AtMost => ended(alloc, reading, last, End::Compare(Compare::AtMost)),
        Token::Dash(_) => plus_next(alloc, reading, Sign::Minus, last),
        Token::Mark(b) => {
            if *b == b'+' {
                plus_next(alloc, reading, Sign::Plus, last)
            } else if *b == b'*' {
                times_next(reading, Factor::Times, last)
            } else if *b == b'/' {
                times_next(reading, Factor::Over, last)
            } else if *b == b',' {
                ended(alloc, reading, last, End::Comma)
            } else if *b == b')' {
                ended(alloc, reading, last, End::Close)
            } else if *b == b'<' {
                ended(alloc, reading, last, End::Compare(Compare::Less))
            } else if *b == b'=' {
                ended(alloc, reading, last, End::Compare(Compare::Equal))
            } else {
                Err(Fault::Refused(Cause::Syntax))
            }
        }
    }
}

fn is_mark(token: &Token, byte: u8) -> bool
    ensures { result ≡ is_mark_of byte (seen token.now) }
{
    match token {
        Token::Mark(b) => *b == byte,
        _ => false,
    }
}

fn at_index(
    alloc: Global,
    scope: &Scope,
    reading: Reading,
    lane: Lane,
    token: &Token,
) -> Result<Reading, Fault>
    ensures { Gives result (index_step (scope_of scope.now) reading lane (seen token.now)) }
{
    match token {
        Token::Number(k) => {
            if *k < u64::from(scope.lanes) {
                let k = *k as u32;
                let expr = match lane {
                    Lane::Val => Expr::Val(k),
                    Lane::Agg => Expr::Agg(k),
                    Lane::Old => Expr::Old(k),
                };
                let leaf = Operand::new(alloc, expr)?;
                let Reading {
                    nodes,
                    top,
                    below,
                    due: _due,
                } = reading;
                Ok(Reading {
                    nodes,
                    top,
                    below,
                    due: Due::CloseBracket(leaf),
                })
            } else {
                Err(Fault::Refused(Cause::TooBig))
            }
        }
        _ => Err(Fault::Refused(Cause::Syntax)),
    }
}

/// What the next token does.
#[tactic(auto, unfolding(crate::specs::Reading::step))]
pub fn step(alloc: Global, scope: &Scope, reading: Reading, token: &Token) -> Result<Reading, Fault>
    requires { length scope.now.params.now ≤ 64 }
    ensures { Gives result (step_of (scope_of scope.now) reading (seen token.now)) }
{
    let Reading {
        nodes,
        top,
        below,
        due,
    } = reading;
    match due {
        Due::Primary => at_operand(
            alloc,
            scope,
            Reading {
                nodes,
                top,
                below,
                due: Due::Primary,
            },
            token,
        ),
        Due::Digits(operand) => Ok(taken(
            alloc,
            Reading {
                nodes,
                top,
                below,
                due: Due::Primary,
            },
            operand,
        )?),
        Due::OpenParen(call) => {
            if is_mark(token, b'(') {
                opened(
                    Reading {
                        nodes,
                        top,
                        below,
                        due: Due::Primary,
                    },
                    first_of(call),
                )
            } else {
                Err(Fault::Refused(Cause::Syntax))
            }
        }
        Due::OpenBracket(lane) => {
            if is_mark(token, b'[') {
                Ok(Reading {
                    nodes,
                    top,
                    below,
                    due: Due::Index(lane),
                })
            } else {
                Err(Fault::Refused(Cause::Syntax))
            }
        }
        Due::Index(lane) => at_index(
            alloc,
            scope,
            Reading {
                nodes,
                top,
                below,
                due: Due::Primary,
            },
            lane,
            token,
        ),
        Due::CloseBracket(operand) => {
            if is_mark(token, b']') {
                Ok(taken(
                    alloc,
                    Reading {
                        nodes,
                        top,
                        below,
                        due: Due::Primary,
                    },
                    operand,
                )?)
            } else {
                Err(Fault::Refused(Cause::Syntax))
            }
        }
        Due::Operator(last) => at_operator(
            alloc,
            Reading {
                nodes,
                top,
                below,
                due: Due::Primary,
            },
            last,
            token,
        ),
    }
}
