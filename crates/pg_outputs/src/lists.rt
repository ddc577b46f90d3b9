//! The lists, kept as records that they share.
ghost use Rattle.std.specs.Prelude.{◌≡◌, ℕ, true, ◌+◌, ◌-◌, ◌<◌, ◌≤◌, ◌↔◌, ◌≢◌, ◌⊎◌, List, [], ◌∷◌, ◌++◌, length, slice_get, Some, None, Ok, false, IsNone, IfSome, IfOk, OnOk, OnErr, MatchOption};
ghost use Rattle.indexmap.specs.IndexSet.{index_set_len, insert_key, insert_index, contains};
ghost use Rattle.pg_outputs.specs.Lists.{list_of};
ghost use Rattle.pg_outputs.specs.Inside.Heads.{Grows, OneHeadEach, IsRecordOf, Lacks};
ghost use Rattle.pg_outputs.specs.Inside.Records.{AreShared};
ghost use Rattle.pg_outputs.specs.declared.lists.TheConstants.{SLOTS};

use crate::records::Record;
use indexmap::IndexSet;
use std::alloc::{AllocError, Global};
use std::marker::Model;

/// The latest records are remembered apart for each dot modulo this number.
const DOTS: usize = 16;

/// For each such dot, they are remembered apart for each sum of value and next modulo this number.
const ROWS: usize = 16;

/// The number of latest records that are remembered.
const SLOTS: usize = DOTS * ROWS;

/// Lists of (value, dot) that share their ends. Head 0 is the empty list, and head `h` is the
/// record at index `h - 1`.
///
/// Most lists that are made in a pass are equal to one that was made before. So the index of the
/// record that was given last is kept for each dot and each sum of value and next, and such a list
/// is found without hashing. Dots that differ by a multiple of 16 share one index, and so do sums
/// that differ by a multiple of 16.
#[derive(Drop)]
pub struct Outputs {
    records: IndexSet<Record>,
    latest: [usize; SLOTS],
}

impl Model for Outputs {
    ghost use Rattle.std.specs.Prelude.{List};
    ghost use Rattle.pg_outputs.specs.declared.records.Record.{Record};
    ghost use Rattle.pg_outputs.specs.Inside.Records.{AreShared};

    ghost Value = { List Record };

    ghost view = { λ o. o.records.keys };

    ghost invariant = { λ o. AreShared o.records.keys };
}

impl Outputs {
    /// No records. It takes no memory.
    pub fn new(alloc: Global) -> Outputs
        ensures empty { result ≡ [] }
        ensures one_head { OneHeadEach result }
    {
        Outputs {
            records: IndexSet::new(alloc),
            latest: [0; SLOTS],
        }
    }

    /// The head of the list with (`value`, `dot`) before the list `next`.
    ///
    /// A record that is there gives its own head, and nothing grows. That takes no memory.
    pub fn cons(&mut self, value: u8, dot: u8, next: u64) -> Result<u64, AllocError>
        requires { next ≤ length self.old }
        ensures list { IfOk result
            (λ h. list_of self.new h ≡ (value, dot) ∷ list_of self.old next) }
        ensures head { IfOk result (λ h. (0 < h) × (h ≤ length self.new)) }
        ensures there { (i : ℕ) → slice_get self.old i
            ≡ Some (record { value = value; dot = dot; next = next })
            → (result ≡ Ok (i + 1)) × (self.new ≡ self.old) }
        ensures added { Lacks self.old (record { value = value; dot = dot; next = next })
            → IfOk result (λ h. (h ≡ length self.old + 1)
            × (self.new ≡ self.old ++ record { value = value; dot = dot; next = next } ∷ [])) }
        ensures at_head { IfOk result
            (λ h. IsRecordOf self.new h (record { value = value; dot = dot; next = next })) }
        ensures adds { OnOk result ((self.new ≡ self.old)
            ⊎ (self.new ≡ self.old ++ record { value = value; dot = dot; next = next } ∷ [])) }
        ensures grows { Grows self.old self.new }
        ensures one_head { OneHeadEach self.new }
        ensures shared { AreShared self.new }
        ensures err { OnErr result (self.new ≡ self.old) }
    {
        let record = Record { value, dot, next };
        let slot = slot_of(&record);
        let latest = self.latest[slot];
        if has_at(&self.records, latest, &record) {
            return Ok(head_at(&self.records, latest));
        }
        let index = insert(&mut self.records, record)?;
        self.latest[slot] = index;
        Ok(head_at(&self.records, index))
    }

    /// The first value and dot of a list, with the head of its rest. `None` is the empty list, head
    /// 0.
    pub fn first(&self, head: u64) -> Option<(u8, u8, u64)>
        requires { head ≤ length self.now }
        ensures none { IsNone result ↔ (head ≡ 0) }
        ensures at_head { IfSome result (λ r.
            IsRecordOf self.now head (record { value = r.0; dot = r.1; next = r.2 })) }
        ensures list { MatchOption result (list_of self.now head ≡ [])
            (λ r. list_of self.now head ≡ (r.0, r.1) ∷ list_of self.now r.2) }
        ensures back { IfSome result (λ r. r.2 < head) }
    {
        let index = head.checked_sub(1)?;
        let record = self.records.get_index(index as usize)?;
        Some((record.value, record.dot, record.next))
    }

    /// The number of records.
    pub fn len(&self) -> u64
        ensures len { result ≡ length self.now }
        ensures one_head { OneHeadEach self.now }
        ensures shared { AreShared self.now }
    {
        self.records.len() as u64
    }
}

// The index of a record, which is put behind the others where it is not among them. It hashes the
// record, and few calls come to that.
#[cold]
fn insert(records: &mut IndexSet<Record>, wanted: Record) -> Result<usize, AllocError>
    ensures keys { OnOk result
        (records.new.keys ≡ insert_key ⟦<Record as PartialEq>⟧.eq records.old.keys wanted) }
    ensures index { IfOk result
        (λ index. index ≡ insert_index ⟦<Record as PartialEq>⟧.eq records.old wanted) }
    ensures within { IfOk result (λ index. index < index_set_len records.new) }
    ensures err { OnErr result (records.new.keys ≡ records.old.keys) }
    ensures absent { OnErr result
        (contains ⟦<Record as PartialEq>⟧.eq records.old wanted ≡ false) }
{
    let (index, _) = records.insert_full(wanted)?;
    Ok(index)
}

// The slot that keeps the index of the latest record like this one.
fn slot_of(record: &Record) -> usize
    ensures { result < SLOTS }
{
    let row = (usize::from(record.value) + record.next as usize % ROWS) % ROWS;
    row * DOTS + usize::from(record.dot) % DOTS
}

// The head of the record at an index. A set has less than 2^63 records, so the sum fits.
fn head_at(records: &IndexSet<Record>, index: usize) -> u64
    requires { index < index_set_len records.now }
    ensures { result ≡ index + 1 }
{
    prove!(index < records.len());
    index as u64 + 1
}

// Whether the record stands at the index.
fn has_at(records: &IndexSet<Record>, index: usize, record: &Record) -> bool
    ensures at { result ≡ true → slice_get records.now.keys index ≡ Some record.now }
    ensures inside { result ≡ true → index < index_set_len records.now }
{
    match records.get_index(index) {
        Some(found) => *found == *record,
        None => false,
    }
}
