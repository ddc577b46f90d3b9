//! A line of a pattern file, as far as it was read.
ghost use Rattle.std.specs.Prelude.{◌≡◌, ◌≤◌, ◌++◌, length, map, OnOk};
ghost use Rattle.pg_patterns.specs.Inside.EntryLines.{entry_at};

use crate::dotted_signs::DottedSigns;
use pg_types::{PATTERN_SIGNS_MAX, Sign};
use std::alloc::AllocError;
use std::marker::Model;

/// The most dots of a line that have a sign behind them.
const DOTS_MAX: usize = PATTERN_SIGNS_MAX;

/// The signs of a line, the digits at the dots before them, and the last digit behind the last
/// sign.
#[derive(Drop)]
pub struct LineDraft {
    signs: [Sign; PATTERN_SIGNS_MAX],
    len: u8,
    digits: [(u8, u8); DOTS_MAX],
    count: u8,
    digit: u8,
}

impl Model for LineDraft {
    ghost use Rattle.std.specs.Prelude.{◌≤◌, take};
    ghost use Rattle.pg_types.specs.declared.limits.TheConstants.{PATTERN_SIGNS_MAX};
    ghost use Rattle.pg_patterns.specs.Inside.Drafts.{Draft};

    ghost Value = { Draft };

    ghost view = { λ d. record {
      signs = take d.len d.signs;
      digits = take d.count d.digits;
      digit = d.digit;
    } };

    ghost invariant = { λ d. (d.len ≤ PATTERN_SIGNS_MAX) × (d.count ≤ d.len) };
}

impl LineDraft {
    ghost use Rattle.std.specs.Prelude.{◌≡◌, ℕ, ◌<◌, ◌≤◌, ◌++◌, length, IsTrue, ◌↔◌, OnOk};
    ghost use Rattle.pg_types.specs.declared.limits.TheConstants.{PATTERN_SIGNS_MAX};
    ghost use Rattle.pg_patterns.specs.Inside.Drafts.{IsDraft, no_draft, draft_with_sign, draft_with_digit, draft_entries};

    /// The draft of no item.
    pub fn new() -> LineDraft
        ensures { result ≡ no_draft }
    {
        LineDraft {
            signs: [0; PATTERN_SIGNS_MAX],
            len: 0,
            digits: [(0, 0); DOTS_MAX],
            count: 0,
            digit: 0,
        }
    }

    /// Whether there is no room for a further sign.
    pub fn is_full(&self) -> bool
        ensures { IsTrue result ↔ (PATTERN_SIGNS_MAX ≤ length self.now.signs) }
    {
        usize::from(self.len) >= PATTERN_SIGNS_MAX
    }

    /// Adds a sign. The digit that was set since the last sign, if it is not 0, becomes the value
    /// at the dot before the new one.
    pub fn push_sign(&mut self, sign: Sign)
        requires { length self.old.signs < PATTERN_SIGNS_MAX }
        ensures { self.new ≡ draft_with_sign self.old sign }
    {
        self.digits[usize::from(self.count)] = (self.len, self.digit);
        self.count += u8::from(self.digit != 0);
        self.signs[usize::from(self.len)] = sign;
        self.len += 1;
        self.digit = 0;
    }

    /// Sets the digit behind the last sign.
    pub fn set_digit(&mut self, digit: u8)
        ensures { self.new ≡ draft_with_digit self.old digit }
    {
        self.digit = digit;
    }

    /// Appends the entries of the line.
    pub fn push_entries(&self, entries: &mut Vec<(DottedSigns, u8)>) -> Result<(), AllocError>
        ensures { OnOk result (entries.new.items ≡ entries.old.items ++ draft_entries self.now) }
    {
        if self.len == 0 {
            return Ok(());
        }
        let signs = &self.signs[..usize::from(self.len)];
        push_digits(signs, &self.digits[..usize::from(self.count)], entries)?;
        if self.digit != 0 {
            entries.push((DottedSigns::new(signs, self.len), self.digit))?;
        }
        Ok(())
    }
}

/// Appends an entry for each digit of a dot.
fn push_digits(
    signs: &[Sign],
    digits: &[(u8, u8)],
    entries: &mut Vec<(DottedSigns, u8)>,
) -> Result<(), AllocError>
    requires { length signs.now ≤ PATTERN_SIGNS_MAX }
    ensures { OnOk result
        (entries.new.items ≡ entries.old.items ++ map (entry_at signs.now) digits.now) }
{
    for digit in digits {
        entries.push((DottedSigns::new(signs, digit.0), digit.1))?;
    }
    Ok(())
}
