//! The lines of a file.
ghost use Rattle.std.specs.Prelude.{◌≡◌, ◌<◌, ◌≤◌, [], ◌∷◌, length, MatchOption, IfSome, slice_range, drop};
ghost use Rattle.std.specs.List.{before_first, after_first};
ghost use Rattle.pg_types.specs.Lines.{lines, is_line_feed};
ghost use Rattle.pg_types.specs.Inside.reading.LineEnds.{without_cr};

use memchr::memchr;

/// The first line of `rest`, without its LF and without one CR at its end, and what follows it;
/// none exactly where `rest` is empty. A last piece without LF is a line too.
pub fn next_line(rest: &[u8]) -> Option<(&[u8], &[u8])>
    ensures lines { MatchOption result (rest.now ≡ [])
        (λ r. lines rest.now ≡ r.0.now ∷ lines r.1.now) }
    ensures line { IfSome result (λ r. r.0.now ≡ without_cr (before_first is_line_feed rest.now)) }
    ensures rest { IfSome result (λ r. r.1.now ≡ after_first is_line_feed rest.now) }
    ensures shorter { IfSome result (λ r. length r.1.now < length rest.now) }
    ensures within { IfSome result (λ r. length r.0.now ≤ length rest.now) }
{
    if rest.is_empty() {
        return None;
    }
    match memchr(b'\n', rest) {
        Some(end) => Some((strip_cr(&rest[..end]), &rest[end + 1..])),
        None => Some((strip_cr(rest), &rest[rest.len()..])),
    }
}

/// `line` without one CR at its end.
fn strip_cr(line: &[u8]) -> &[u8]
    ensures value { result.now ≡ without_cr line.now }
    ensures within { length result.now ≤ length line.now }
{
    if !line.is_empty() && line[line.len() - 1] == b'\r' {
        &line[..line.len() - 1]
    } else {
        line
    }
}
