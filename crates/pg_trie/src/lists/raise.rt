//! The list of a string with one value or hopeless entry more.
ghost use Rattle.std.specs.Prelude.{◌≡◌, ◌<◌, ◌≤◌, ◌↔◌, length, IfOk, IsTrue};
ghost use Rattle.pg_outputs.specs.Lists.{list_of};
ghost use Rattle.pg_outputs.specs.Inside.Heads.{Grows, OneHeadEach};
ghost use Rattle.pg_trie.specs.Inside.Lists.{rank, list_with};

use crate::hopeless::HOPELESS;
use pg_outputs::Outputs;
use std::alloc::AllocError;

// Whether a value at a dot stands before another: by the dot, and at one dot a value before the
// hopeless entry.
fn stands_before(value: u8, dot: u8, other: u8, other_dot: u8) -> bool
    ensures { IsTrue result ↔ (rank (value, dot) < rank (other, other_dot)) }
{
    dot < other_dot || dot == other_dot && value < HOPELESS && other >= HOPELESS
}

// Whether two values at dots are both values of one dot, or both its hopeless entry.
fn stands_beside(value: u8, dot: u8, other: u8, other_dot: u8) -> bool
    ensures { IsTrue result ↔ (rank (value, dot) ≡ rank (other, other_dot)) }
{
    dot == other_dot && (value < HOPELESS) == (other < HOPELESS)
}

/// The head of the list with `value` at `dot`. Where it has a value there, the greater one counts.
pub fn head_with(outputs: &mut Outputs, head: u64, value: u8, dot: u8) -> Result<u64, AllocError>
    requires { head ≤ length outputs.old }
    ensures list { IfOk result
        (λ h. list_of outputs.new h ≡ list_with (value, dot) (list_of outputs.old head)) }
    ensures inside { IfOk result (λ h. h ≤ length outputs.new) }
    ensures grows { Grows outputs.old outputs.new }
{
    let Some((first, at, next)) = outputs.first(head) else {
        return outputs.cons(value, dot, head);
    };
    if stands_before(value, dot, first, at) {
        return outputs.cons(value, dot, head);
    }
    if stands_beside(value, dot, first, at) {
        return outputs.cons(value.max(first), at, next);
    }
    let rest = head_with(outputs, next, value, dot)?;
    outputs.cons(first, at, rest)
}
