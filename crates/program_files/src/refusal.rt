// Why a program's text is refused.
use range_check::RangeRefusal;
use vertex_lang::LangError;

/// Why a program's text is refused.
#[derive(Clone, Copy, Debug, PartialEq, Eq)]
pub enum ProgramRefusal {
    /// It is no program's text.
    Text(LangError),
    /// The program isn't safe on every graph within its limits.
    Range(RangeRefusal),
}
