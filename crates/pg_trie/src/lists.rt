//! The lists of the strings, and the heads that were raised last.
ghost use Rattle.std.specs.Prelude.{◌≡◌, ◌≤◌, length, IfOk};
ghost use Rattle.pg_outputs.specs.Lists.{list_of};
ghost use Rattle.pg_outputs.specs.Inside.Heads.{Grows};
ghost use Rattle.pg_trie.specs.Inside.Lists.{list_with};

pub mod head;
mod raise;

use crate::lists::head::{Head, in_four_bytes};
use crate::lists::raise::head_with;
use pg_outputs::Outputs;
use std::alloc::AllocError;
use std::marker::Model;

/// How many raised heads are kept.
const SLOTS: usize = 64;

/// A head, and that of its list with a value at a dot. The value 0 says that there is none.
#[derive(Clone, Copy)]
pub struct RaisedHead {
    pub value: u8,
    /// How many signs stand before the value.
    pub dot: u8,
    /// The head of the list before it got the value.
    pub before: u64,
    /// The head of the list with the value.
    pub after: u64,
}

/// The records of the lists.
///
/// The strings that are entered in a pass get one value at one dot, and most of their lists are
/// equal to one of few. So a head that was raised is kept beside the new one, and the next string
/// with this list gets its head without a look at the records. Heads that differ by a multiple of
/// 64 share one slot.
#[derive(Drop)]
pub struct Lists {
    outputs: Outputs,
    raised: [RaisedHead; SLOTS],
}

impl Model for Lists {
    ghost use Rattle.std.specs.Prelude.{List};
    ghost use Rattle.pg_outputs.specs.declared.records.Record.{Record};
    ghost use Rattle.pg_trie.specs.Inside.RaisedHeads.{AreRaised};

    ghost Value = { List Record };

    ghost view = { λ l. l.outputs };

    ghost invariant = { λ l. AreRaised l.outputs l.raised };
}

impl Lists {
    /// The lists of the records.
    pub fn new(outputs: Outputs) -> Lists
        ensures { result ≡ outputs }
    {
        let none = RaisedHead {
            value: 0,
            dot: 0,
            before: 0,
            after: 0,
        };
        Lists {
            outputs,
            raised: [none; SLOTS],
        }
    }

    /// The records.
    pub fn outputs(&self) -> &Outputs
        ensures { result.now ≡ self.now }
    {
        &self.outputs
    }

    /// The head of the list with `value` at `dot`. Where it has a value there, the greater one
    /// counts.
    pub fn raise(&mut self, head: u64, value: u8, dot: u8) -> Result<u64, AllocError>
        requires head { head ≤ length self.old }
        requires value { 1 ≤ value }
        ensures list { IfOk result
            (λ h. list_of self.new h ≡ list_with (value, dot) (list_of self.old head)) }
        ensures inside { IfOk result (λ h. h ≤ length self.new) }
        ensures grows { Grows self.old self.new }
    {
        let slot = head as usize % SLOTS;
        let last = self.raised[slot];
        if last.value == value && last.dot == dot && last.before == head {
            return Ok(last.after);
        }
        let after = head_with(&mut self.outputs, head, value, dot)?;
        self.raised[slot] = RaisedHead {
            value,
            dot,
            before: head,
            after,
        };
        Ok(after)
    }
}

/// The head of the list with `value` at `dot`, for a cell. Where it has a value there, the greater
/// one counts.
pub fn raised_head(lists: &mut Lists, head: u64, value: u8, dot: u8) -> Result<Head, AllocError>
    requires head { head ≤ length lists.old }
    requires value { 1 ≤ value }
    ensures list { IfOk result
        (λ h. list_of lists.new h ≡ list_with (value, dot) (list_of lists.old head)) }
    ensures inside { IfOk result (λ h. h ≤ length lists.new) }
    ensures grows { Grows lists.old lists.new }
{
    let longer = lists.raise(head, value, dot)?;
    let number = in_four_bytes(longer)?;
    Ok(Head::new(number))
}
