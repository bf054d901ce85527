// What a step does to the expressions that are being read.
ghost use Rattle.std.specs.Prelude.{◌≡◌, IfOk};
ghost use Rattle.expr_text.specs.Gives.{Gives};
ghost use Rattle.expr_text.specs.Reading.{counted as counted_of, taken as taken_of};
ghost use Rattle.expr_text.specs.Reading.{opened as opened_of, fresh as fresh_frame};
ghost use Rattle.expr_text.specs.Reading.{times_next as times_of, plus_next as plus_of};
ghost use Rattle.expr_text.specs.Reading.{product_of as product_tree, signed as signed_of};
ghost use Rattle.expr_text.specs.Reading.{scaled as scaled_of};

use crate::reading::{Cause, Due, Factor, Fault, Frame, Place, Reading, Sign};
use bolt_base::Memory;
use std::alloc::Global;
use vertex_expr::{Expr, Operand};

pub fn fresh(place: Place) -> Frame
    ensures { result ≡ fresh_frame place }
{
    Frame {
        place,
        sum: None,
        product: None,
    }
}

#[tactic(auto, unfolding(crate::specs::Reading::counted))]
pub fn counted(reading: Reading) -> Result<Reading, Fault>
    ensures { Gives result (counted_of reading) }
{
    if reading.nodes < 256 {
        let Reading {
            nodes,
            top,
            below,
            due,
        } = reading;
        Ok(Reading {
            nodes: nodes + 1,
            top,
            below,
            due,
        })
    } else {
        Err(Fault::Refused(Cause::TooBig))
    }
}

fn signed(alloc: Global, sign: Sign, left: Operand, right: Operand) -> Result<Operand, Memory>
    ensures { IfOk result (λ o. o ≡ signed_of sign left right) }
{
    match sign {
        Sign::Plus => Operand::new(alloc, Expr::Plus(left, right)),
        Sign::Minus => Operand::new(alloc, Expr::Minus(left, right)),
    }
}

fn scaled(alloc: Global, factor: Factor, left: Operand, right: Operand) -> Result<Operand, Memory>
    ensures { IfOk result (λ o. o ≡ scaled_of factor left right) }
{
    match factor {
        Factor::Times => Operand::new(alloc, Expr::Times(left, right)),
        Factor::Over => Operand::new(alloc, Expr::Over(left, right)),
    }
}

pub fn taken(alloc: Global, reading: Reading, operand: Operand) -> Result<Reading, Memory>
    ensures { IfOk result (λ r. r ≡ taken_of reading operand) }
{
    let Reading {
        nodes,
        top,
        below,
        due,
    } = reading;
    let Frame {
        place,
        sum,
        product,
    } = top;
    match product {
        None => Ok(Reading {
            nodes,
            top: Frame {
                place,
                sum,
                product: None,
            },
            below,
            due: Due::Operator(operand),
        }),
        Some((factor, left)) => {
            let made = scaled(alloc, factor, left, operand)?;
            Ok(Reading {
                nodes,
                top: Frame {
                    place,
                    sum,
                    product: None,
                },
                below,
                due: Due::Operator(made),
            })
        }
    }
}

#[tactic(auto, unfolding(crate::specs::Reading::opened))]
pub fn opened(reading: Reading, place: Place) -> Result<Reading, Fault>
    ensures { Gives result (opened_of reading place) }
{
    let Reading {
        nodes,
        top,
        below,
        due,
    } = reading;
    let mut below = below;
    if below.len() < 32 {
        below.push(top)?;
        Ok(Reading {
            nodes,
            top: fresh(place),
            below,
            due: Due::Primary,
        })
    } else {
        Err(Fault::Refused(Cause::TooBig))
    }
}

pub fn product_of(
    alloc: Global,
    sum: Option<(Sign, Operand)>,
    product: Operand,
) -> Result<Operand, Memory>
    ensures { IfOk result (λ o. o ≡ product_tree sum product) }
{
    match sum {
        None => Ok(product),
        Some((sign, left)) => signed(alloc, sign, left, product),
    }
}

pub fn times_next(reading: Reading, factor: Factor, left: Operand) -> Result<Reading, Fault>
    ensures { Gives result (times_of reading factor left) }
{
    let Reading {
        nodes,
        top,
        below,
        due,
    } = counted(reading)?;
    let Frame {
        place,
        sum,
        product: _product,
    } = top;
    let top = Frame {
        place,
        sum,
        product: Some((factor, left)),
    };
    let _was = due;
    Ok(Reading {
        nodes,
        top,
        below,
        due: Due::Primary,
    })
}

pub fn plus_next(
    alloc: Global,
    reading: Reading,
    sign: Sign,
    last: Operand,
) -> Result<Reading, Fault>
    ensures { Gives result (plus_of reading sign last) }
{
    let Reading {
        nodes,
        top,
        below,
        due,
    } = counted(reading)?;
    let Frame {
        place,
        sum,
        product,
    } = top;
    let left = product_of(alloc, sum, last)?;
    let top = Frame {
        place,
        sum: Some((sign, left)),
        product,
    };
    let _was = due;
    Ok(Reading {
        nodes,
        top,
        below,
        due: Due::Primary,
    })
}
