//! Bytes that texts are divided by.
ghost use Rattle.std.specs.Prelude.{◌≡◌, ◌≤◌, length};
ghost use Rattle.std.specs.List.{prefix_len};
ghost use Rattle.lexical.specs.Bytes.{is_blank as is_blank_byte, is_no_blank, is_no_line_feed};
ghost use Rattle.lexical.specs.Bytes.{is_no_hash};
ghost use Rattle.lexical.specs.Bytes.{without_carriage_return as without_carriage_return_of};
ghost use Rattle.lexical.specs.Bytes.{before_comment as before_comment_of};

/// Whether a byte is a space or a tab.
pub fn is_blank(b: u8) -> bool
    ensures { result ≡ is_blank_byte b }
{
    b == b' ' || b == b'\t'
}

/// How many blanks stand in front.
pub fn blanks_len(text: &[u8]) -> usize
    ensures value { result ≡ prefix_len is_blank_byte text.now }
    ensures within { result ≤ length text.now }
{
    text.iter().take_while(|b| is_blank(**b)).count()
}

/// How many bytes stand before the first blank.
pub fn word_len(text: &[u8]) -> usize
    ensures value { result ≡ prefix_len is_no_blank text.now }
    ensures within { result ≤ length text.now }
{
    text.iter().take_while(|b| !is_blank(**b)).count()
}

/// How many bytes stand before the first line feed.
pub fn line_feed_at(text: &[u8]) -> usize
    ensures value { result ≡ prefix_len is_no_line_feed text.now }
    ensures within { result ≤ length text.now }
{
    text.iter().take_while(|b| !(**b == b'\n')).count()
}

/// How many bytes stand before the comment.
pub fn comment_at(line: &[u8]) -> usize
    ensures value { result ≡ prefix_len is_no_hash line.now }
    ensures within { result ≤ length line.now }
{
    line.iter().take_while(|b| !(**b == b'#')).count()
}

/// What stands in a line before its comment.
pub fn before_comment(line: &[u8]) -> &[u8]
    ensures value { result.now ≡ before_comment_of line.now }
    ensures within { length result.now ≤ length line.now }
{
    &line[..comment_at(line)]
}

/// What stands before a line feed, without a carriage return directly before it.
pub fn without_carriage_return(line: &[u8]) -> &[u8]
    ensures value { result.now ≡ without_carriage_return_of line.now }
    ensures within { length result.now ≤ length line.now }
{
    if !line.is_empty() && line[line.len() - 1] == b'\r' {
        &line[..line.len() - 1]
    } else {
        line
    }
}
