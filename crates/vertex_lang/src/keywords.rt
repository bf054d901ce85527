// The words that begin entries, in the order of the entries.
ghost use Rattle.std.specs.Prelude.{◌≡◌, ◌≤◌};
ghost use Rattle.vertex_lang.specs.Keywords.{order as order_of, keyword_of as keyword_for};
ghost use Rattle.vertex_lang.specs.Keywords.{once_at as once_in};

use text_words::Keyword;

/// The place of the word's entry in the order, from 0.
pub fn order(keyword: Keyword) -> u32
    ensures value { result ≡ order_of keyword }
    ensures small { result ≤ 12 }
{
    match keyword {
        Keyword::Program => 0,
        Keyword::Vertices => 1,
        Keyword::Degree => 2,
        Keyword::Edges => 3,
        Keyword::Weight => 4,
        Keyword::Attr => 5,
        Keyword::Rounds => 6,
        Keyword::Combine => 7,
        Keyword::Param => 8,
        Keyword::Lane => 9,
        Keyword::Init => 10,
        Keyword::Contribute => 11,
        Keyword::Apply => 12,
    }
}

/// The entry that a word begins.
#[tactic(auto, unfolding(crate::specs::Keywords::keyword_of))]
pub fn keyword_of(word: &[u8]) -> Option<Keyword>
    ensures { result ≡ keyword_for word.now }
{
    if word == b"program".as_slice() {
        Some(Keyword::Program)
    } else if word == b"vertices".as_slice() {
        Some(Keyword::Vertices)
    } else if word == b"degree".as_slice() {
        Some(Keyword::Degree)
    } else if word == b"edges".as_slice() {
        Some(Keyword::Edges)
    } else if word == b"weight".as_slice() {
        Some(Keyword::Weight)
    } else if word == b"attr".as_slice() {
        Some(Keyword::Attr)
    } else if word == b"rounds".as_slice() {
        Some(Keyword::Rounds)
    } else if word == b"combine".as_slice() {
        Some(Keyword::Combine)
    } else if word == b"param".as_slice() {
        Some(Keyword::Param)
    } else if word == b"lane".as_slice() {
        Some(Keyword::Lane)
    } else if word == b"init".as_slice() {
        Some(Keyword::Init)
    } else if word == b"contribute".as_slice() {
        Some(Keyword::Contribute)
    } else if word == b"apply".as_slice() {
        Some(Keyword::Apply)
    } else {
        None
    }
}

/// The entry at a place of the order, of the first eight.
#[tactic(auto, unfolding(crate::specs::Keywords::once_at))]
pub fn once_at(place: u32) -> Keyword
    ensures { result ≡ once_in place }
{
    match place {
        0 => Keyword::Program,
        1 => Keyword::Vertices,
        2 => Keyword::Degree,
        3 => Keyword::Edges,
        4 => Keyword::Weight,
        5 => Keyword::Attr,
        6 => Keyword::Rounds,
        _ => Keyword::Combine,
    }
}
