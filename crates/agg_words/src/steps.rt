// The rule of the table, and its kinds of step.
ghost use Rattle.agg_words.specs.View.{bare, joined, with_fewer};
ghost use Rattle.agg_words.specs.Rule.{IsKept, opened};
ghost use Rattle.agg_words.specs.Steps.{added, taken, marked, met, looked, wiped};

use crate::layout::Layout;
use crate::view::View;
use atomic_table::{Join, Play, Split, TableRule};
use std::marker::{Brand, PhantomData};

/// The rule.
pub struct Words;

impl TableRule<u8, View, Layout> for Words {
    ghost holds = { λ k s. IsKept k s.words s.views };

    ghost first = { opened };
}

/// Adds to an aggregate word.
pub struct Add;

impl Play<u8, View> for Add {
    ghost then = { added };
}

/// Makes an aggregate word 0.
pub struct Take;

impl Play<u8, View> for Take {
    ghost then = { taken };
}

/// Puts two seats together.
pub struct Glue;

impl Join<View> for Glue {
    ghost both = { joined };

    ghost spent = { bare 0 };
}

/// What a step is told at its call: a number, and the table's layout.
pub trait Operand {
    ghost use Rattle.std.specs.Prelude.{ℕ};
    ghost use Rattle.agg_words.specs.declared.layout.Layout.{Layout};

    ghost number: { ℕ };

    ghost layout: { Layout };
}

impl Operand for Brand {
    ghost number = { 0 };

    ghost layout = { record { words = 0; bits = 0; units = 0 } };
}

/// Cuts off `O.number` units.
pub struct Cut<O: Operand>(PhantomData<O>);

impl<O: Operand> Split<View> for Cut<O> {
    ghost left = { λ v. with_fewer v O.number };

    ghost right = { λ _. bare O.number };
}

/// Sets the bit `O.number`.
pub struct Mark<O: Operand>(PhantomData<O>);

impl<O: Operand> Play<u8, View> for Mark<O> {
    ghost then = { marked O.number O.layout };
}

/// Loads the word of the bit `O.number`, and meets the bit where it is set.
pub struct Meet<O: Operand>(PhantomData<O>);

impl<O: Operand> Play<u8, View> for Meet<O> {
    ghost then = { met O.number O.layout };
}

/// Loads a word.
pub struct Look<O: Operand>(PhantomData<O>);

impl<O: Operand> Play<u8, View> for Look<O> {
    ghost then = { looked O.layout };
}

/// Clears the mark word `O.number`.
pub struct Wipe<O: Operand>(PhantomData<O>);

impl<O: Operand> Play<u8, View> for Wipe<O> {
    ghost then = { wiped O.number };
}
