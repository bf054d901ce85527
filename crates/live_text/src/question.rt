// What is asked.
use board::Query;
use bolt_base::Items;

/// What a line of a question text asks.
#[derive(Clone, Copy, Debug, PartialEq, Eq)]
pub enum Question {
    /// A query.
    Ask(Query),
    /// None of the forms.
    Unknown,
}

/// The questions of a text.
pub type QuestionList = Items<Question>;
