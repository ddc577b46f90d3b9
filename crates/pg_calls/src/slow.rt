//! Cells against a slow list of families.
ghost use Rattle.pg_types.specs.Inside.Signs.{IsSignCount};

use crate::families::{Families, NONE};
use crate::strings::{cell_below, change_below};
use pg_cells::Cells;
use pg_draws::Draws;
use pg_types::{SIGNS_MAX, Sign};
use std::alloc::Global;
use std::process::Abort;
use std::test::Fail;

/// One step, on both, below one of the taken cells.
fn take_step(
    cells: &mut Cells<u32>,
    families: &mut Families,
    taken: &[usize],
    draws: &mut Draws,
) -> Result<(), Fail> {
    let drawn = draws.next_below(taken.len().max(1));
    let parent = taken.get(drawn).copied().unwrap_or(0);
    let s = 1 + draws.next_below(usize::from(cells.signs()).max(1)) as Sign;
    change_below(cells, parent, s, 1)?;
    families.change(parent, s)?;
    Ok(())
}

/// Compares each cell with its family.
fn compare_cells(rt: &impl Abort, cells: &Cells<u32>, families: &Families) {
    for used in families.list() {
        if used.cell != 0 {
            let parent = families.parent(used.family);
            assert_eq!(rt; cell_below(cells, parent, used.sign), Some(used.cell));
        }
    }
}

/// Compares the number of taken cells, the top and each cell with its family.
fn compare(rt: &impl Abort, cells: &Cells<u32>, families: &Families, taken: &[usize]) {
    let top = taken.last().copied().unwrap_or(0);
    assert_eq!(rt; (cells.taken(), cells.top()), (taken.len(), top));
    compare_cells(rt, cells, families);
}

/// Takes steps in a table with so many signs, and compares after each. Gives the number of taken
/// cells.
fn run(rt: &impl Abort, alloc: Global, signs: Sign, steps: u32) -> Result<usize, Fail>
    requires { IsSignCount signs }
{
    let mut cells = Cells::<u32>::new(alloc, signs, 0)?;
    let mut families = Families::new(alloc, signs)?;
    take_steps(rt, &mut cells, &mut families, steps)?;
    Ok(cells.taken())
}

/// Takes steps in both, and compares after each.
fn take_steps(
    rt: &impl Abort,
    cells: &mut Cells<u32>,
    families: &mut Families,
    steps: u32,
) -> Result<(), Fail> {
    let mut draws = Draws::new(5);
    let mut taken = families.cells_without(NONE)?;
    for _ in 0..steps {
        take_step(cells, families, taken.as_slice(), &mut draws)?;
        taken = families.cells_without(NONE)?;
        compare(rt, cells, families, taken.as_slice());
    }
    Ok(())
}

#[test]
fn cells_and_slow_families(rt: HostRuntime) -> Result<(), Fail> {
    assert_eq!(rt; run(&rt, rt.alloc(), 40, 3_000)?, 2_933);
    run(&rt, rt.alloc(), SIGNS_MAX, 100)?;
    Ok(())
}
