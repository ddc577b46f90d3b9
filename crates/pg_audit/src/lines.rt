//! The first false line.
ghost use Rattle.std.specs.Prelude.{◌≡◌, ◌+◌, ◌≤◌, ◌↔◌, [], None, Some, length, IsNone, IfSome, MatchOption};
ghost use Rattle.pg_types.specs.Lines.{is_line_feed};
ghost use Rattle.pg_audit.specs.Differences.{whole_lines, first_false};
ghost use Rattle.pg_audit.specs.Inside.FirstFalse.{IsFirstFalse};
ghost use Rattle.pg_audit.specs.Inside.Cut.{first_whole, rest_whole};

use memchr::memchr;

/// How many bytes of a false line are shown at most.
pub const SHOWN_MAX: usize = 200;

/// A line of a given file that is not the wanted one.
#[derive(Clone, Copy, Debug, PartialEq, Eq)]
pub struct FalseLine<'a> {
    /// The number of the line, counted from 1.
    pub line: u64,
    /// The line that the given file has there, with its LF if it has one. It is empty where the
    /// file has no such line.
    pub found: &'a [u8],
}

/// The first line at which `given` differs from `wanted`; none exactly where the two are equal.
///
/// Lines are compared with their LF and CR, and a missing line differs from every line. It takes no
/// memory.
pub fn compare<'a>(given: &'a [u8], wanted: &[u8]) -> Option<FalseLine<'a>>
    ensures answer { MatchOption result (first_false given.now wanted.now ≡ None)
        (λ f. first_false given.now wanted.now
        ≡ Some (f.line, f.found.now)) }
    ensures equal { IsNone result ↔ (given.now ≡ wanted.now) }
    ensures least { IfSome result
        (λ f. IsFirstFalse given.now wanted.now (f.line, f.found.now)) }
    ensures missing { IfSome result
        (λ f. (f.found.now ≡ []) ↔ (length (whole_lines given.now) + 1 ≡ f.line)) }
    ensures within { IfSome result (λ f. length f.found.now ≤ length given.now) }
{
    let mut rest = given;
    let mut due = wanted;
    let mut line = 1;
    'lines: while !rest.is_empty() {
        let (found, after) = first_line(rest);
        let (right, due_after) = first_line(due);
        if found != right {
            return Some(FalseLine { line, found });
        }
        rest = after;
        due = due_after;
        line += 1;
    }
    if due.is_empty() {
        None
    } else {
        Some(FalseLine { line, found: rest })
    }
}

/// The first line of `rest` with its LF, and what follows it; both are empty where `rest` is.
fn first_line(rest: &[u8]) -> (&[u8], &[u8])
    ensures line { result.0.now ≡ first_whole rest.now }
    ensures rest { result.1.now ≡ rest_whole rest.now }
{
    match memchr(b'\n', rest) {
        Some(end) => (&rest[..end + 1], &rest[end + 1..]),
        None => (rest, &rest[rest.len()..]),
    }
}
