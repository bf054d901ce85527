// What changes in an answer.
ghost use Rattle.std.specs.Prelude.{◌≡◌, ◌<◌, ◌^◌, IfOk, length};
ghost use Rattle.run_model.specs.Logs.{answer_changes, differs};

use bolt_base::{AnswerChange, ChangeList, Lanes, Memory};
use std::alloc::Global;

// Whether a vertex is a new one, or has another value than before.
fn is_other(old: &[Lanes], new: &[Lanes], v: usize) -> bool
    requires { v < length new.now }
    ensures { result ≡ differs old.now new.now v }
{
    if old.len() <= v {
        return true;
    }
    !old[v].same(&new[v])
}

/// What changes from an answer to another one: the vertices whose value differs and the new ones,
/// rising, with their new values.
pub fn changes_between(alloc: Global, old: &[Lanes], new: &[Lanes]) -> Result<ChangeList, Memory>
    requires few { length new.now < 2 ^ 32 }
    ensures { IfOk result (λ changes. changes ≡ answer_changes old.now new.now) }
{
    let mut changes = ChangeList::new(alloc);
    for v in 0..new.len() {
        if is_other(old, new, v) {
            changes.push(AnswerChange {
                vertex: v as u32,
                value: new[v],
            })?;
        }
    }
    Ok(changes)
}
