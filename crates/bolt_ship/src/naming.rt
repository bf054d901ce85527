// The programs by their names.
ghost use Rattle.std.specs.Prelude.{◌≡◌, MatchOption, None, Some};
ghost use Rattle.bolt_ship.specs.Texts.{text_of};

use crate::texts::{DIST, LABELS2, LABELS4, RANK, WIDE};

/// The text of the program of this name. None for every name but `rank`, `labels2`, `labels4`,
/// `dist` and `wide`.
pub fn shipped(name: &str) -> Option<&'static [u8]>
    ensures text { MatchOption result (text_of name.now ≡ None)
        (λ text. text_of name.now ≡ Some text.now) }
{
    match name {
        "rank" => Some(RANK),
        "labels2" => Some(LABELS2),
        "labels4" => Some(LABELS4),
        "dist" => Some(DIST),
        "wide" => Some(WIDE),
        _ => None,
    }
}
