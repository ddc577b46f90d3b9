//! Cells of small tables.

use crate::strings::{cell_of, change_at};
use pg_cells::Cells;
use pg_types::Sign;
use std::process::Abort;
use std::test::Fail;

/// A step: the sign that is added below a string, or removed where it is there. The cell of an
/// added sign follows, and then the number of taken cells and the greatest of them.
type Step = (&'static [Sign], Sign, Option<usize>, usize, usize);

/// Takes the steps, and compares after each.
fn take_steps(rt: &impl Abort, cells: &mut Cells<u32>, steps: &[Step]) -> Result<(), Fail> {
    for (string, sign, cell, taken, top) in steps {
        let found = change_at(cells, string, *sign, 1)?;
        assert!(rt; found == *cell && cells.taken() == *taken && cells.top() == *top);
    }
    Ok(())
}

/// Two strings of a table of one sign.
const ONE_SIGN: &[Step] = &[(&[1], 1, Some(2), 2, 2), (&[1, 1], 1, Some(3), 3, 3)];

#[test]
fn one_sign(rt: HostRuntime) -> Result<(), Fail> {
    take_steps(&rt, &mut Cells::<u32>::new(rt.alloc(), 1, 0)?, ONE_SIGN)
}

/// Steps in a table of the edge and three letters. The fourth moves a family.
const STEPS: &[Step] = &[
    (&[2], 3, Some(5), 5, 5),
    (&[3], 2, Some(6), 6, 6),
    (&[3], 4, Some(8), 7, 8),
    (&[2], 1, Some(7), 8, 9),
    (&[4], 1, Some(10), 9, 10),
    (&[1], 2, Some(5), 10, 10),
];

/// All steps but the first, taken back.
const STEPS_BACK: &[Step] = &[
    (&[3], 2, None, 9, 10),
    (&[3], 4, None, 8, 10),
    (&[2], 1, None, 7, 10),
    (&[4], 1, None, 6, 9),
    (&[1], 2, None, 5, 9),
];

/// Takes the steps and goes back. Once a family has moved, the cell of its first sign is another.
fn step_and_back(rt: &impl Abort, cells: &mut Cells<u32>) -> Result<(), Fail> {
    assert!(rt; cells.taken() == 4 && cells.top() == 4);
    take_steps(rt, cells, STEPS)?;
    assert!(rt; cell_of(cells, &[2, 3]) == Some(9));
    take_steps(rt, cells, STEPS_BACK)
}

#[test]
fn small_steps(rt: HostRuntime) -> Result<(), Fail> {
    step_and_back(&rt, &mut Cells::<u32>::new(rt.alloc(), 4, 0)?)
}
