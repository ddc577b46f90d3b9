//! A line that is being read, and its refusals.
ghost use Rattle.std.specs.Prelude.{◌≡◌, ◌≤◌, ◌+◌, ◌-◌, length};
ghost use Rattle.pg_types.specs.declared.limits.TheConstants.{FILE_MAX, WEIGHT_MAX};
ghost use Rattle.pg_translate.specs.LineRefusals.{bad_kind};
ghost use Rattle.pg_types.specs.ValuesOrRefusals.{refusal_at};
ghost use Rattle.pg_translate.specs.declared.items.Place.TheVariants.{Dictionary};

use pg_translate::Table;
use pg_types::{Kind, Refusal, Weight};

/// A line that is being read.
#[derive(Clone, Copy)]
pub(crate) struct Line<'t> {
    /// The table by which the line is read.
    pub table: &'t Table,
    /// The number of the line, from 1.
    pub number: u32,
    /// The number of its bytes.
    pub size: usize,
    /// The word weight of the line.
    pub weight: Weight,
    pub ghost short: { size ≤ FILE_MAX },
    pub ghost small: { weight ≤ WEIGHT_MAX },
}

/// Why a byte that begins no item is refused.
pub(crate) fn kind_of(rest: &[u8]) -> Kind
    ensures { result ≡ bad_kind Dictionary rest.now }
{
    match rest.first() {
        Some(b'{') => Kind::BadWeight,
        _ => Kind::DictionaryCharacter,
    }
}

impl Line<'_> {
    /// A refusal at the first byte of `rest`, the rest of the line.
    pub(crate) fn refuse(&self, kind: Kind, rest: &[u8]) -> Refusal
        requires { length rest.now ≤ self.now.size }
        ensures { result ≡ refusal_at self.now.number kind (self.now.size - length rest.now + 1) }
    {
        Refusal {
            kind,
            line: self.number,
            column: (self.size - rest.len() + 1) as u32,
        }
    }
}
