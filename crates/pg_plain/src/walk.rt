//! The entries that apply in a word.
ghost use Rattle.std.specs.Prelude.{◌≡◌, ◌+◌, ◌<◌, ◌≤◌, true, false, length};
ghost use Rattle.std.specs.List.{list_all, list_any};
ghost use Rattle.pg_types.specs.declared.limits.TheConstants.{PATTERN_SIGNS_MAX, WORD_LETTERS_MAX};
ghost use Rattle.pg_patterns.specs.Values.{applies};
ghost use Rattle.pg_select.specs.Inside.words.Positions.{RaisesValues, RaisesCovers, RaisesAt, values_of, covers_of};
ghost use Rattle.pg_plain.specs.Inside.Greatest.{greatest_at, entry_value, entry_cover};
ghost use Rattle.pg_plain.specs.Inside.Strings.{is_string};
ghost use Rattle.pg_plain.specs.Inside.Walks.{has_signs_at, is_extension, applies_from};

use crate::dotted_entry::DottedEntry;
use crate::dotted_keys::DottedKey;
use pg_select::{Pass, WordState};
use pg_types::{PATTERN_SIGNS_MAX, Sign};
use std::collections::BTreeMap;
use std::ops::Bound;

/// Raises the values and covers of a word by each entry whose signs stand in it. An entry raises
/// the value of the position of its dot to its own. It covers the window of that position where its
/// signs stand in the window and it covers at the level of the pass. The walk takes no memory. From
/// each sign on it looks up each string of the word in the map, up to the first with which no
/// longer string of the map begins. An index beside the map would save little: where no starting
/// value is as great as the first level, a run hyphenates each word once.
pub fn walk<F: DottedEntry>(
    map: &BTreeMap<DottedKey, F>,
    w: &[Sign],
    pass: &Pass,
    out: &mut WordState,
)
    requires len { length w.now ≤ WORD_LETTERS_MAX + 2 }
    requires strings { list_all (λ e. is_string e.0) map.now.entries ≡ true }
    ensures values { RaisesValues
        (greatest_at (entry_value F.given) (applies w.now) map.now.entries) out.old out.new }
    ensures covers { RaisesCovers
        (greatest_at (entry_cover F.covers_at pass.now) (applies w.now) map.now.entries)
        out.old out.new }
{
    if map.is_empty() {
        return;
    }
    for i in 0..w.len() {
        raise_from(map, w, i, pass, out);
    }
}

/// Raises them by the entries whose signs stand in the word from `i` on, the shorter ones first.
fn raise_from<F: DottedEntry>(
    map: &BTreeMap<DottedKey, F>,
    w: &[Sign],
    i: usize,
    pass: &Pass,
    out: &mut WordState,
)
    requires len { length w.now ≤ WORD_LETTERS_MAX + 2 }
    requires inside { i ≤ length w.now }
    requires strings { list_all (λ e. is_string e.0) map.now.entries ≡ true }
    ensures values { RaisesValues
        (greatest_at (entry_value F.given) (applies_from w.now i) map.now.entries) out.old
        out.new }
    ensures covers { RaisesCovers
        (greatest_at (entry_cover F.covers_at pass.now) (applies_from w.now i)
        map.now.entries)
        out.old out.new }
{
    for n in 1..PATTERN_SIGNS_MAX + 1 {
        if n > w.len() - i {
            return;
        }
        if !raise_by_string(map, &w[i..i + n], i, pass, out) {
            return;
        }
    }
}

/// Raises them by the entries whose signs are `q`, which stand in the word from `i` on. It is false
/// only where no longer string of the map begins with `q`.
fn raise_by_string<F: DottedEntry>(
    map: &BTreeMap<DottedKey, F>,
    q: &[Sign],
    i: usize,
    pass: &Pass,
    out: &mut WordState,
) -> bool
    requires few { length q.now ≤ PATTERN_SIGNS_MAX }
    requires inside { i ≤ WORD_LETTERS_MAX + 2 }
    ensures values { RaisesValues
        (greatest_at (entry_value F.given) (has_signs_at q.now i) map.now.entries) out.old
        out.new }
    ensures covers { RaisesCovers
        (greatest_at (entry_cover F.covers_at pass.now) (has_signs_at q.now i)
        map.now.entries) out.old out.new }
    ensures ends { result ≡ false → list_any (λ e. is_extension q.now e.0.0) map.now.entries
        ≡ false }
{
    let first = DottedKey::new(q, 0);
    for (dotted, entry) in map.range((Bound::Included(&first), Bound::Unbounded)) {
        if dotted.signs() != q {
            return dotted.signs().starts_with(q);
        }
        raise_by_entry(dotted, entry, i, pass, out);
    }
    false
}

/// Raises them by an entry whose signs stand in the word from `i` on.
fn raise_by_entry<F: DottedEntry>(
    dotted: &DottedKey,
    entry: &F,
    i: usize,
    pass: &Pass,
    out: &mut WordState,
)
    requires { i ≤ WORD_LETTERS_MAX + 2 }
    ensures values { RaisesAt (i + dotted.now.1) (F.given entry.now)
        (values_of out.old) (values_of out.new) }
    ensures covers { RaisesAt (i + dotted.now.1)
        (entry_cover F.covers_at pass.now (dotted.now, entry.now))
        (covers_of out.old) (covers_of out.new) }
{
    let covered = entry.covers(pass.level) && pass.has_within(dotted.signs().len(), dotted.dot());
    out.raise(i + usize::from(dotted.dot()), entry.value(), covered);
}
