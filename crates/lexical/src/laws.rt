//! Both ways of reading a text are alike.
ghost use Rattle.lexical.specs.Laws.{WordsAreAlike, LinesAreAlike};

/// The words with their places are the words that blanks split.
pub fn words_are_alike()
    ensures { WordsAreAlike }
{}

/// The lines with their places are the lines that line feeds split, each before its comment.
pub fn lines_are_alike()
    ensures { LinesAreAlike }
{}
