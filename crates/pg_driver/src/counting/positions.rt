//! What the positions of a word count as, and the windows that they have.
ghost use Rattle.std.specs.Prelude.{ℕ, List, ◌≡◌, ◌≤◌, ◌+◌, ◌-◌, length};
ghost use Rattle.pg_select.specs.CountedPositions.{counts_as as counts_as_of};
ghost use Rattle.pg_select.specs.Windows.{fits as fits_in, window};
ghost use Rattle.pg_driver.specs.Inside.counting.OpenSigns.{has_care as has_care_of};

use pg_select::Pass;
use pg_types::{Mark, Sign};

/// Whether a position of this status counts at a level as good, or as bad, or not at all. Odd
/// levels find breaks, and even levels forbid them (Liang's thesis of 1983, patgen 2.4).
pub fn counts_as(level: u8, mark: Mark) -> Option<bool>
    ensures { result ≡ counts_as_of level mark }
{
    let finds = level % 2 == 1;
    match mark {
        Mark::Missed if finds => Some(true),
        Mark::Nothing if finds => Some(false),
        Mark::Error if !finds => Some(true),
        Mark::Found if !finds => Some(false),
        _ => None,
    }
}

/// Whether a position of this status has care. If so, it counts at all odd levels or at all even
/// ones while it keeps the status.
pub fn has_care(mark: Mark) -> bool
    ensures { result ≡ has_care_of mark }
{
    !matches!(mark, Mark::DontCare)
}

/// Whether the window of a pass with its dot at position `p` of a word of `size` signs lies in the
/// word.
pub fn fits(pass: Pass, size: usize, p: usize) -> bool
    requires { p ≤ size }
    ensures { (w : List ℕ) → length w ≡ size → result ≡ fits_in w p pass.len pass.dot }
{
    let dot = usize::from(pass.dot);
    dot <= p && usize::from(pass.len) <= size - (p - dot)
}

/// The window of a pass with its dot at position `p` of these signs. It has to lie among them.
pub fn window_at(pass: Pass, signs: &[Sign], p: usize) -> &[Sign]
    requires dot { pass.dot ≤ p }
    requires end { p - pass.dot + pass.len ≤ length signs.now }
    ensures is { result.now ≡ window signs.now p pass.len pass.dot }
    ensures len { length result.now ≡ pass.len }
{
    let first = p - usize::from(pass.dot);
    &signs[first..first + usize::from(pass.len)]
}
