//! The links from sign to sign of a family. A family's signs are linked in rising order: the string
//! that they follow has the first one, and each has the next.
ghost use Rattle.std.specs.Prelude.{◌≡◌, ◌≢◌, ℕ, ◌<◌, ◌≤◌, ◌⊎◌, ◌&&◌, nat_eq, true, false, List, [], ◌∷◌, ◌++◌, Some, OnOk};
ghost use Rattle.pg_types.specs.Inside.Signs.{IsTableSign};
ghost use Rattle.pg_types.specs.Inside.Placing.{cell_of, joins_at};
ghost use Rattle.pg_cells.specs.declared.store.cell.TheConstants.{SIGN_COUNT};
ghost use Rattle.pg_cells.specs.Inside.families.Adding.{CanTakeSign};
ghost use Rattle.pg_cells.specs.Inside.linked.AreValuedFamilies.{AreValuedFamilies};
ghost use Rattle.pg_cells.specs.Inside.linked.CellValues.{GivesBase, HasBase, IsTaken};
ghost use Rattle.pg_cells.specs.Inside.linked.Members.{IsNextSign, IsBefore, goes_on, has_sign, ArePassing, ArePositive};
ghost use Rattle.pg_cells.specs.Inside.linked.Links.{AreLinks, with_link};

use crate::families::Placed;
use crate::store::member::Member;
use pg_types::Sign;
use std::alloc::AllocError;

/// The sign behind `s` in the family below the parent's string, which has the base; the first one
/// for 0. The answer is 0 where there is none.
pub fn sign_after<V: Copy>(cells: &Placed<V>, parent: usize, base: usize, s: Sign) -> Sign
    requires links { AreLinks cells.now }
    requires parent { IsTaken cells.now.families parent }
    requires base { GivesBase cells.now.families parent base }
    requires sign { (q : List ℕ) → cell_of cells.now.families q ≡ Some parent
        → (s ≡ 0) ⊎ (goes_on cells.now.values q s ≡ true) }
    ensures next { (q : List ℕ) → cell_of cells.now.families q ≡ Some parent
        → IsNextSign cells.now.values q s result }
    ensures fits { result < SIGN_COUNT }
{
    if s == 0 {
        return cells.value(parent).first;
    }
    if base == 0 {
        return 0;
    }
    match cells.find(base, s) {
        Some(cell) => cells.value(cell).next,
        None => 0,
    }
}

// Whether the family with the base has the sign; the base is 0 where there is no family.
fn has_sign<V: Copy>(cells: &Placed<V>, base: usize, s: Sign) -> bool
    requires held { AreValuedFamilies cells.now }
    requires base { (q : List ℕ) × (HasBase cells.now.families q base) }
    requires sign { IsTableSign cells.now.signs s }
    ensures { (q : List ℕ) → HasBase cells.now.families q base →
        result ≡ goes_on cells.now.values q s }
{
    if base == 0 {
        return false;
    }
    cells.find(base, s).is_some()
}

/// How many signs are looked at, one by one, for each link that is followed. A sign's cell lies
/// beside that of the sign below it, and the cell of a link may lie far off.
const SIGNS_PER_LINK: Sign = 8;

// The greatest sign above `low` and up to `high` in the family with the base, or `low` where there
// is none. The base is 0 where there is no family.
fn sign_down<V: Copy>(cells: &Placed<V>, base: usize, low: Sign, high: Sign) -> Sign
    requires held { AreValuedFamilies cells.now }
    requires base { (q : List ℕ) × (HasBase cells.now.families q base) }
    requires low { low ≤ high }
    requires high { high ≤ cells.now.signs }
    ensures within { (low ≤ result) × (result ≤ high) }
    ensures there { (q : List ℕ) → HasBase cells.now.families q base →
        low < result → goes_on cells.now.values q result ≡ true }
    ensures most { (q : List ℕ) → HasBase cells.now.families q base →
        (z : ℕ) → result < z → z ≤ high → goes_on cells.now.values q z ≡ false }
{
    let mut sign = high;
    'down: while low < sign {
        if has_sign(cells, base, sign) {
            return sign;
        }
        sign -= 1;
    }
    sign
}

/// The greatest sign below `s` in the family below the parent's string, which has the base; 0 where
/// there is none. It is sought along the signs from the first one on and, side by side, sign by
/// sign down from `s`.
pub fn sign_before<V: Copy>(cells: &Placed<V>, parent: usize, base: usize, s: Sign) -> Sign
    requires links { AreLinks cells.now }
    requires parent { IsTaken cells.now.families parent }
    requires base { GivesBase cells.now.families parent base }
    requires sign { IsTableSign cells.now.signs s }
    ensures { (q : List ℕ) → cell_of cells.now.families q ≡ Some parent
        → IsBefore cells.now.values q s result }
{
    let mut before = 0;
    let mut next = sign_after(cells, parent, base, 0);
    let mut below = s - 1;
    while next != 0 && next < s {
        let low = below.saturating_sub(SIGNS_PER_LINK);
        below = sign_down(cells, base, low, below);
        if low < below {
            return below;
        }
        before = next;
        next = sign_after(cells, parent, base, before);
    }
    before
}

/// Lists the signs of the family below the parent's string, which has the base, in rising order.
pub fn list_signs<V: Copy>(
    cells: &Placed<V>,
    parent: usize,
    base: usize,
    signs: &mut Vec<Sign>,
) -> Result<(), AllocError>
    requires links { AreLinks cells.now }
    requires parent { IsTaken cells.now.families parent }
    requires base { GivesBase cells.now.families parent base }
    ensures positive { OnOk result (ArePositive signs.new.items) }
    ensures signs { (q : List ℕ) → cell_of cells.now.families q ≡ Some parent →
        OnOk result (ArePassing (goes_on cells.now.values q) signs.new.items) }
{
    signs.clear();
    let mut next = sign_after(cells, parent, base, 0);
    while next != 0 {
        signs.push(next)?;
        next = sign_after(cells, parent, base, next);
    }
    Ok(())
}

/// Lists the signs of the family below the parent's string, which has the base, where `s` does not
/// join it in place.
pub fn list_moving<V: Copy>(
    cells: &Placed<V>,
    parent: usize,
    base: usize,
    s: Sign,
    signs: &mut Vec<Sign>,
) -> Result<(), AllocError>
    requires links { AreLinks cells.now }
    requires can { CanTakeSign cells.now.signs cells.now.families parent s }
    requires base { GivesBase cells.now.families parent base }
    ensures positive { OnOk result (ArePositive signs.new.items) }
    ensures signs { (q : List ℕ) → cell_of cells.now.families q ≡ Some parent →
        joins_at cells.now.families q s ≡ false →
        OnOk result (ArePassing (has_sign cells.now.families q) signs.new.items) }
{
    if cells.is_joining(parent, s) {
        signs.clear();
        return Ok(());
    }
    list_signs(cells, parent, base, signs)?;
    Ok(())
}

/// Whether a sign is alone in its family, by the signs before and after it.
pub fn is_alone(before: Sign, after: Sign) -> bool
    ensures { result ≡ (nat_eq before 0 && nat_eq after 0) }
{
    before == 0 && after == 0
}

// Makes `to` the first sign of the family below the parent's string.
fn set_first<V: Copy>(cells: &mut Placed<V>, parent: usize, to: Sign)
    requires taken { IsTaken cells.old.families parent }
    requires fits { to < SIGN_COUNT }
    ensures linked { (q : List ℕ) → cell_of cells.old.families q ≡ Some parent →
        cells.new ≡ with_link cells.old q 0 to }
    ensures kept { AreValuedFamilies cells.new }
{
    let member = cells.value(parent);
    cells.set_value(
        parent,
        Member {
            first: to,
            ..member
        },
    );
}

// Makes `to` the sign behind that of the cell.
fn set_next<V: Copy>(cells: &mut Placed<V>, cell: usize, to: Sign)
    requires taken { IsTaken cells.old.families cell }
    requires fits { to < SIGN_COUNT }
    ensures linked { (q : List ℕ) (s : ℕ) → s ≢ 0 →
        cell_of cells.old.families (q ++ s ∷ []) ≡ Some cell →
        cells.new ≡ with_link cells.old q s to }
    ensures kept { AreValuedFamilies cells.new }
{
    let member = cells.value(cell);
    cells.set_value(cell, Member { next: to, ..member });
}

/// Links the sign `to` behind `s` in the family below the parent's string, as the first one for 0.
pub fn link<V: Copy>(cells: &mut Placed<V>, parent: usize, s: Sign, to: Sign)
    requires held { AreValuedFamilies cells.old }
    requires parent { (q : List ℕ) × ((cell_of cells.old.families q ≡ Some parent)
        × ((s ≡ 0) ⊎ (goes_on cells.old.values q s ≡ true))) }
    requires fits { to < SIGN_COUNT }
    ensures linked { (q : List ℕ) → cell_of cells.old.families q ≡ Some parent →
        cells.new ≡ with_link cells.old q s to }
    ensures kept { AreValuedFamilies cells.new }
{
    if s == 0 {
        set_first(cells, parent, to);
        return;
    }
    let base = cells.child(parent);
    if base == 0 {
        return;
    }
    if let Some(cell) = cells.find(base, s) {
        set_next(cells, cell, to);
    }
}
