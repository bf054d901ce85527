// What a program's contributions read of their source.
ghost use Rattle.std.specs.Prelude.{◌≡◌};
ghost use Rattle.run_model.specs.Steps.{reads_attr, reads_outdeg};

use vertex_expr::{Program, mentions_attr, mentions_outdeg};

/// Whether a lane of the contribution mentions the out-degree.
pub fn reads_outdeg(program: &Program) -> bool
    ensures { result ≡ reads_outdeg program.now }
{
    for expr in program.entries().contribute.as_slice() {
        if mentions_outdeg(expr) {
            return true;
        }
    }
    false
}

/// Whether a lane of the contribution mentions the attribute.
pub fn reads_attr(program: &Program) -> bool
    ensures { result ≡ reads_attr program.now }
{
    for expr in program.entries().contribute.as_slice() {
        if mentions_attr(expr) {
            return true;
        }
    }
    false
}
