//! A slow list of the cells of families.
use pg_types::Sign;
use std::alloc::{AllocError, Global};

/// A family of at most this many signs is placed from base 1 on. The number stands here once more,
/// so that the list does not take it from the code under test.
const FEW: usize = 4;

/// How far below the greatest taken cell the places of a greater family begin, at least.
const FAR: usize = 255;

/// No family.
pub const NONE: usize = usize::MAX;

/// A cell of a family.
#[derive(Clone, Copy)]
pub struct FamilyCell {
    /// The cell, 0 where it was given up.
    pub cell: usize,
    pub sign: Sign,
    /// Its family: the number in the list, counted from 1, of the cell that the family is below, or
    /// 0 for the root.
    pub family: usize,
}

/// The cells of a table whose greatest sign is `signs`.
#[derive(Drop)]
pub struct Families {
    alloc: Global,
    signs: Sign,
    list: Vec<FamilyCell>,
}

/// The cell of a sign at a base.
fn cell_at(base: usize, sign: Sign) -> usize {
    base.saturating_add(usize::from(sign))
}

impl Families {
    /// The root alone.
    pub fn new(alloc: Global, signs: Sign) -> Result<Families, AllocError> {
        let mut list = Vec::new(alloc);
        for sign in 1..=signs {
            list.push(FamilyCell {
                cell: usize::from(sign),
                sign,
                family: 0,
            })?;
        }
        Ok(Families { alloc, signs, list })
    }

    /// The cells, in the order in which they were added.
    pub fn list(&self) -> &[FamilyCell] {
        self.list.as_slice()
    }

    /// The used cells that are not of this family, in rising order.
    pub fn cells_without(&self, family: usize) -> Result<Vec<usize>, AllocError> {
        let mut cells = Vec::new(self.alloc);
        for used in &self.list {
            if used.cell != 0 && used.family != family {
                cells.push(used.cell)?;
            }
        }
        cells.sort_unstable();
        Ok(cells)
    }

    /// The cell that a family is below, or `None` for the root.
    pub fn parent(&self, family: usize) -> Option<usize> {
        if family == 0 {
            return None;
        }
        let used = self.list.get(family - 1)?;
        Some(used.cell)
    }

    /// Adds the sign to the family below a used cell, or removes it where it is there and no family
    /// is below it.
    pub fn change(&mut self, parent: usize, sign: Sign) -> Result<(), AllocError> {
        let family = self.family_below(parent);
        let at = self.number_of(family, sign);
        if at == 0 {
            return self.add(family, sign);
        }
        if self.base(at) == 0 {
            self.give_up(at);
        }
        Ok(())
    }

    /// The family below a used cell.
    fn family_below(&self, cell: usize) -> usize {
        for (i, used) in self.list.iter().enumerate() {
            if used.cell == cell {
                return i + 1;
            }
        }
        NONE
    }

    /// The number of a family's sign in the list, counted from 1, or 0 where the family lacks it.
    fn number_of(&self, family: usize, sign: Sign) -> usize {
        for (i, used) in self.list.iter().enumerate() {
            if used.family == family && used.sign == sign {
                return i + 1;
            }
        }
        0
    }

    /// The base of a family that is not the root, or 0 where there is none.
    fn base(&self, family: usize) -> usize {
        for used in &self.list {
            if used.family == family {
                return used.cell.saturating_sub(usize::from(used.sign));
            }
        }
        0
    }

    /// Gives up the cell with a number.
    fn give_up(&mut self, number: usize) {
        if let Some(used) = self.list.get_mut(number.saturating_sub(1)) {
            used.cell = 0;
            used.family = NONE;
        }
    }

    /// Adds a sign to a family, in place where its cell is unused.
    fn add(&mut self, family: usize, sign: Sign) -> Result<(), AllocError> {
        let base = self.base(family);
        let cell = cell_at(base, sign);
        let joins = base != 0 && self.family_below(cell) == NONE;
        self.list.push(FamilyCell { cell, sign, family })?;
        if joins { Ok(()) } else { self.place(family) }
    }

    /// Puts a family at the least base.
    fn place(&mut self, family: usize) -> Result<(), AllocError> {
        let signs = self.signs_of(family)?;
        let cells = self.cells_without(family)?;
        let base = self.least_base(family, signs.as_slice(), cells.as_slice());
        for used in self.list.iter_mut() {
            if used.family == family {
                used.cell = cell_at(base, used.sign);
            }
        }
        Ok(())
    }

    /// A family's signs.
    fn signs_of(&self, family: usize) -> Result<Vec<Sign>, AllocError> {
        let mut signs = Vec::new(self.alloc);
        for used in &self.list {
            if used.family == family {
                signs.push(used.sign)?;
            }
        }
        Ok(signs)
    }

    /// The lowest base that is tried for so many signs.
    fn lowest_base(&self, count: usize, cells: &[usize]) -> usize {
        let top = cells.last().copied().unwrap_or(0);
        if count <= FEW {
            return 1;
        }
        top.saturating_sub(usize::from(self.signs).max(FAR)).max(1)
    }

    /// The least base that no other family has and where the signs' cells are none of these.
    fn least_base(&self, family: usize, signs: &[Sign], cells: &[usize]) -> usize {
        for base in self.lowest_base(signs.len(), cells)..usize::MAX {
            if are_unused(base, signs, cells) && !self.is_base(base, family) {
                return base;
            }
        }
        usize::MAX
    }

    /// Whether a family other than this one has the base.
    fn is_base(&self, base: usize, family: usize) -> bool {
        for used in &self.list {
            if used.family != family && used.cell == cell_at(base, used.sign) {
                return true;
            }
        }
        false
    }
}

/// Whether the cells of signs at a base are none of these.
fn are_unused(base: usize, signs: &[Sign], cells: &[usize]) -> bool {
    for sign in signs {
        if cells.binary_search(&cell_at(base, *sign)).is_ok() {
            return false;
        }
    }
    true
}
