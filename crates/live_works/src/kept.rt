// The batches of the streams.
ghost use Rattle.std.specs.Prelude.{◌≡◌, ◌<◌, length, slice_index_or};
ghost use Rattle.live_course.specs.Made.{file_of, no_batch};

use bolt_base::Items;
use graph_text::BatchText;

/// How many batches a stream has.
pub(crate) fn count(streams: &[Items<BatchText>], stream: u32) -> u64
    requires { stream < length streams.now }
    ensures { result ≡ length (file_of streams.now stream) }
{
    streams[stream as usize].len() as u64
}

/// A batch of a stream, counted from 0.
pub(crate) fn kept(streams: &[Items<BatchText>], stream: u32, number: u64) -> &BatchText
    requires stream { stream < length streams.now }
    requires number { number < length (file_of streams.now stream) }
    ensures { result.now ≡ slice_index_or (file_of streams.now stream) number no_batch }
{
    &streams[stream as usize].as_slice()[number as usize]
}

/// Whether two batches are the same.
pub(crate) fn same_batch(one: &BatchText, other: &BatchText) -> bool {
    one.first_line == other.first_line
        && one.bad == other.bad
        && one.edits.as_slice() == other.edits.as_slice()
        && one.lines.as_slice() == other.lines.as_slice()
}
