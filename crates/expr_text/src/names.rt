// Names that a param can't have.
ghost use Rattle.std.specs.Prelude.{◌≡◌};
ghost use Rattle.std.specs.List.{list_any};
ghost use Rattle.std.specs.Str.{bytes_eq};
ghost use Rattle.vertex_expr.specs.Names.{is_reserved as is_reserved_word};
ghost use Rattle.vertex_expr.specs.Names.{is_taken as is_taken_word};
ghost use Rattle.vertex_expr.specs.Writable.{names_of};

use vertex_expr::NamedParam;

#[tactic(auto, unfolding(vertex_expr::specs::Names::is_reserved))]
fn is_reserved(word: &[u8]) -> bool
    ensures { result ≡ is_reserved_word word.now }
{
    word == b"val".as_slice()
        || word == b"outdeg".as_slice()
        || word == b"weight".as_slice()
        || word == b"attr".as_slice()
        || word == b"id".as_slice()
        || word == b"agg".as_slice()
        || word == b"old".as_slice()
        || word == b"min".as_slice()
        || word == b"max".as_slice()
        || word == b"clamp".as_slice()
        || word == b"if".as_slice()
}

fn is_among_params(params: &[NamedParam], word: &[u8]) -> bool
    ensures { result ≡ list_any (λ param. bytes_eq param.name word.now) params.now }
{
    params.iter().any(|param| param.name.as_slice() == word)
}

fn is_among(params: &[NamedParam], word: &[u8]) -> bool
    ensures { result ≡ list_any (λ name. bytes_eq name word.now) (names_of params.now) }
{
    is_among_params(params, word)
}

/// Whether the word is a name of the expression table, a call, or one of these params.
#[tactic(auto, unfolding(vertex_expr::specs::Names::is_taken))]
pub fn is_taken(params: &[NamedParam], word: &[u8]) -> bool
    ensures { result ≡ is_taken_word (names_of params.now) word.now }
{
    if is_reserved(word) {
        true
    } else {
        is_among(params, word)
    }
}
