// The type of what a seat knows.
use std::marker::{Model, PhantomData};

/// What a seat knows: its units, the amounts that it added, the bits that it marked and those that
/// it met. Contracts alone see it, and no value of it is made.
pub struct View {
    unmade: PhantomData<()>,
}

impl Model for View {
    ghost use Rattle.agg_words.specs.View.{View, bare};

    ghost Value = { View };

    ghost view = { λ _. bare 0 };
}
