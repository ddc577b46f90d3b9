//! Laws of every table. A call does nothing; its contract is the law.
ghost use Rattle.std.specs.Prelude.{◌≡◌, ℕ, ◌+◌, ◌≤◌, ◌⊎◌, ◌++◌, List, Some, None, true, false, length};
ghost use Rattle.std.specs.List.{list_any};
ghost use Rattle.pg_translate.specs.Alphabets.{letters_of, spelling_of};
ghost use Rattle.pg_translate.specs.Cuts.{items_of};
ghost use Rattle.pg_translate.specs.Inside.items.Items.{IsItem, IsCut, IsPrefix, AreLongest};
ghost use Rattle.pg_translate.specs.Inside.tables.Rules.{KeepsRules};
ghost use Rattle.pg_translate.specs.Spellings.{is_space};
ghost use Rattle.pg_translate.specs.Tokens.{Token, item_at, is_ended};
ghost use Rattle.pg_translate.specs.Tokens as token;

use super::Table;
use crate::items::Place;

/// A table keeps the rules of the translate file on minima, marks, letters and spellings.
pub fn keeps_rules(table: &Table)
    ensures { KeepsRules table.now }
{
    let _ = &table.head;
}

/// Where an item begins a text, it is the first item of the text, whatever follows it. The spelling
/// of each letter is an item. An item holds no blank, TAB, LF or CR. Where a line ends, no item
/// stands.
pub fn items_are_read(table: &Table, place: Place)
    ensures read { (item : Token) (text more : List ℕ) → IsItem table.now place item text
        → item_at table.now place (text ++ more) ≡ Some (item, text) }
    ensures unbroken { (item : Token) (text : List ℕ)
        → IsItem table.now place item text → list_any is_space text
        ≡ false }
    ensures ended { (text : List ℕ) → is_ended text ≡ true → item_at table.now place text ≡ None }
    ensures spellings { (s : ℕ) → 2 ≤ s → s ≤ letters_of table.now + 1
        → IsItem table.now place (token.Letter s) (spelling_of table.now s) }
{
    keeps_rules(table);
}

/// Of two cuts of one line into items, one is a prefix of the other.
pub fn cuts_agree(table: &Table, place: Place)
    ensures { (line : List ℕ) (a b : List (Token × List ℕ)) → IsCut table.now place line a
        → IsCut table.now place line b → (IsPrefix a b ⊎ IsPrefix b a) }
{
    keeps_rules(table);
}

/// The items of a line, which are taken one after the other, are its longest cut into items, each
/// with its column.
pub fn items_are_longest(table: &Table, place: Place)
    ensures { (line : List ℕ) → AreLongest table.now place line (items_of table.now place line) }
{
    keeps_rules(table);
}
