// What a parenthesis, a comma and a comparison do to the expressions that are being read.
ghost use Rattle.std.specs.Prelude.{◌≡◌, IfOk};
ghost use Rattle.expr_text.specs.Gives.{Gives};
ghost use Rattle.expr_text.specs.Reading.{first_of as first_place, after_comma as comma_place};
ghost use Rattle.expr_text.specs.Reading.{after_compare as compare_place, closed as closed_of};
ghost use Rattle.expr_text.specs.Reading.{moved as moved_of, shut as shut_of, ended as ended_of};

use crate::frames::{fresh, product_of, taken};
use crate::reading::{Call, Cause, Due, End, Fault, Frame, Place, Reading};
use bolt_base::Memory;
use std::alloc::Global;
use vertex_expr::{Compare, Expr, Operand};

pub fn first_of(call: Call) -> Place
    ensures { result ≡ first_place call }
{
    match call {
        Call::Min => Place::MinFirst,
        Call::Max => Place::MaxFirst,
        Call::Clamp => Place::ClampFirst,
        Call::If => Place::IfFirst,
    }
}

fn after_comma(place: Place, operand: Operand) -> Option<Place>
    ensures { result ≡ comma_place place operand }
{
    match place {
        Place::MinFirst => Some(Place::MinSecond(operand)),
        Place::MaxFirst => Some(Place::MaxSecond(operand)),
        Place::ClampFirst => Some(Place::ClampSecond(operand)),
        Place::ClampSecond(x) => Some(Place::ClampThird(x, operand)),
        Place::IfSecond(c, a) => Some(Place::IfThird(c, a, operand)),
        Place::IfThird(c, a, b) => Some(Place::IfFourth(c, a, b, operand)),
        _ => None,
    }
}

fn after_compare(compare: Compare, place: Place, operand: Operand) -> Option<Place>
    ensures { result ≡ compare_place compare place operand }
{
    match place {
        Place::IfFirst => Some(Place::IfSecond(compare, operand)),
        _ => None,
    }
}

fn closed(alloc: Global, place: Place, operand: Operand) -> Result<Option<Operand>, Memory>
    ensures { IfOk result (λ o. o ≡ closed_of place operand) }
{
    match place {
        Place::Group => Ok(Some(operand)),
        Place::MinSecond(a) => Ok(Some(Operand::new(alloc, Expr::Min(a, operand))?)),
        Place::MaxSecond(a) => Ok(Some(Operand::new(alloc, Expr::Max(a, operand))?)),
        Place::ClampThird(x, a) => Ok(Some(Operand::new(alloc, Expr::Clamp(x, a, operand))?)),
        Place::IfFourth(c, a, b, x) => Ok(Some(Operand::new(
            alloc,
            Expr::If(c, a, b, x, operand),
        )?)),
        _ => Ok(None),
    }
}

/// A comma or a comparison: on to another place of the call.
fn moved(reading: Reading, place: Option<Place>) -> Result<Reading, Fault>
    ensures { Gives result (moved_of reading place) }
{
    let Reading {
        nodes,
        top: _top,
        below,
        due: _due,
    } = reading;
    match place {
        None => Err(Fault::Refused(Cause::Syntax)),
        Some(place) => Ok(Reading {
            nodes,
            top: fresh(place),
            below,
            due: Due::Primary,
        }),
    }
}

/// A closing parenthesis, with what it makes.
fn shut(alloc: Global, reading: Reading, made: Option<Operand>) -> Result<Reading, Fault>
    ensures { Gives result (shut_of reading made) }
{
    let Reading {
        nodes,
        top: _top,
        below,
        due,
    } = reading;
    let mut below = below;
    let Some(made) = made else {
        return Err(Fault::Refused(Cause::Syntax));
    };
    match below.pop() {
        None => Err(Fault::Refused(Cause::Syntax)),
        Some(top) => Ok(taken(
            alloc,
            Reading {
                nodes,
                top,
                below,
                due,
            },
            made,
        )?),
    }
}

/// What may stand behind an operand and end it: a comma, a comparison or a closing parenthesis.
pub fn ended(alloc: Global, reading: Reading, last: Operand, end: End) -> Result<Reading, Fault>
    ensures { Gives result (ended_of reading last end) }
{
    let Reading {
        nodes,
        top,
        below,
        due,
    } = reading;
    let Frame {
        place,
        sum,
        product,
    } = top;
    let operand = product_of(alloc, sum, last)?;
    let empty = Frame {
        place: Place::Whole,
        sum: None,
        product,
    };
    let reading = Reading {
        nodes,
        top: empty,
        below,
        due,
    };
    match end {
        End::Comma => moved(reading, after_comma(place, operand)),
        End::Compare(compare) => moved(reading, after_compare(compare, place, operand)),
        End::Close => {
            let made = closed(alloc, place, operand)?;
            shut(alloc, reading, made)
        }
    }
}
