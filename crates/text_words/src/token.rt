/// A token of an expression.
#[derive(Clone, Copy, Debug)]
pub enum Token<'a> {
    /// Digits, as their number, capped_number at the greatest `u64`.
    Number(u64),
    /// A letter and what goes on with letters, digits and `_`.
    Word(&'a [u8]),
    /// `<=`.
    AtMost,
    /// `-`, with the number that stands directly behind it.
    Dash(Option<u64>),
    /// Any other byte.
    Mark(u8),
}
