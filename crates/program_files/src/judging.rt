// A program's text is judged.
ghost use Rattle.std.specs.Prelude.{◌≡◌, IfOk};
ghost use Rattle.program_files.specs.Judged.{judged};

use crate::refusal::ProgramRefusal;
use bolt_base::Memory;
use range_check::{Accepted, RangeRefusal, check};
use std::alloc::Global;
use vertex_lang::{LangError, parse};

/// Judges a program's text: the accepted program, or why the text is refused.
pub fn judge(alloc: Global, text: &[u8]) -> Result<Result<Accepted, ProgramRefusal>, Memory>
    ensures judged { IfOk result (λ r. r ≡ judged text.now) }
{
    let program = match parse(alloc, text) {
        Ok(program) => program,
        Err(LangError::Memory) => return Err(Memory),
        Err(refusal) => return Ok(Err(ProgramRefusal::Text(refusal))),
    };
    match check(alloc, program) {
        Ok(accepted) => Ok(Ok(accepted)),
        Err(RangeRefusal::Memory) => Err(Memory),
        Err(refusal) => Ok(Err(ProgramRefusal::Range(refusal))),
    }
}
