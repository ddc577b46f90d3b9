//! A record of a packed table.
ghost use Rattle.std.specs.Prelude.{◌≡◌, ◌+◌, ◌≤◌, ◌&&◌, nat_le, length};
ghost use Rattle.pg_types.specs.declared.packed_table.TheConstants.{RECORD_LEN};
ghost use Rattle.pg_types.specs.declared.limits.TheConstants.{LEVEL_MAX};
ghost use Rattle.pg_table.specs.Inside.Breaches.{record_breach};
ghost use Rattle.pg_table.specs.Inside.Extents.{record_start, read_record};

use crate::parts::breach::RecordRule;
use crate::parts::cell::cell_start;
use crate::parts::numbers::u32_at;
use pg_outputs::Record;
use pg_types::packed_table::RECORD_LEN;
use pg_types::{LEVEL_MAX, PATTERN_SIGNS_MAX};

/// Where the record with the number `i`, counted from 0, begins behind `cells` cells.
pub fn record_start(cells: u32, i: u32) -> usize
    ensures { result ≡ record_start cells i }
{
    cell_start(cells) + RECORD_LEN * i as usize
}

/// The record that begins at `start`.
pub fn read_record(bytes: &[u8], start: usize) -> Record
    requires { start + RECORD_LEN ≤ length bytes.now }
    ensures { result ≡ read_record bytes.now start }
{
    Record {
        value: bytes[start],
        dot: bytes[start + 1],
        next: u64::from(u32_at(bytes, start + 2)),
    }
}

/// Whether a record may have this value.
fn is_value(value: u8) -> bool
    ensures { result ≡ (nat_le 1 value && nat_le value LEVEL_MAX) }
{
    1 <= value && value <= LEVEL_MAX
}

/// The first rule that the record with the number `i`, counted from 0, breaks there.
pub fn record_breach(i: u32, entry: Record) -> Option<RecordRule>
    ensures { result ≡ record_breach i entry }
{
    if !is_value(entry.value) {
        Some(RecordRule::Value)
    } else if usize::from(entry.dot) > PATTERN_SIGNS_MAX {
        Some(RecordRule::Dot)
    } else if entry.next > u64::from(i) {
        Some(RecordRule::Back)
    } else {
        None
    }
}
