//! The cells file.
ghost use Rattle.std.specs.Prelude.{◌≡◌, ◌++◌, map, All, IsSome, OnOk, IfOk, Some};
ghost use Rattle.std.specs.List.{flat_map};
ghost use Rattle.pg_driver.specs.Inside.records.CellsAccounts.{CellsAccount};
ghost use Rattle.pg_driver.specs.Inside.records.RunAccounts.{TellsCells};
ghost use Rattle.pg_texts.specs.Inside.CellsLines as cells;
ghost use Rattle.pg_texts.specs.Inside.CellsRecords.{HasLayouts, layout_there, pass_cells, level_cells, run_cells};

use crate::fronts::{push_level_front, push_pass_front};
use pg_driver::{LevelRecord, PassRecord, Run};
use pg_types::{Layout, push_number};
use std::alloc::{AllocError, Global};

/// The layout, which every record of this run has.
fn layout_of(layout: Option<Layout>) -> Layout
    requires { IsSome layout }
    ensures { result ≡ layout_there layout }
{
    match layout {
        Some(layout) => layout,
        None => unreachable!(),
    }
}

/// Appends how many cells are taken, and the greatest of them.
fn push_used(text: &mut Vec<u8>, layout: &Layout) -> Result<(), AllocError>
    ensures { OnOk result
        (text.new.items ≡ text.old.items ++ cells.taken_text layout.now.taken layout.now.top) }
{
    push_number(text, b"", layout.taken)?;
    push_number(text, b" taken, top ", layout.top)
}

/// Appends a layout and the line's end.
pub fn push_layout(text: &mut Vec<u8>, layout: &Layout) -> Result<(), AllocError>
    ensures { OnOk result (text.new.items ≡ text.old.items ++ cells.layout_line_text layout.now) }
{
    push_used(text, layout)?;
    push_number(text, b", ", layout.tails)?;
    text.extend_from_slice(b" tails\n")
}

/// Appends the line of a pass.
fn push_pass(text: &mut Vec<u8>, pass: &PassRecord) -> Result<(), AllocError>
    requires { IsSome pass.now.layout }
    ensures { OnOk result
        (text.new.items ≡ text.old.items ++ cells.pass_cells_text (pass_cells pass.now)) }
{
    push_pass_front(text, pass)?;
    push_used(text, &layout_of(pass.layout))?;
    text.extend_from_slice(b"\n")
}

/// Appends the lines of the passes of a level.
fn push_passes(text: &mut Vec<u8>, passes: &[PassRecord], level: u8) -> Result<(), AllocError>
    requires { All (λ p. IsSome p.layout) passes.now }
    ensures { OnOk result (text.new.items
        ≡ text.old.items ++ cells.pass_cells_lines (map pass_cells passes.now) level) }
{
    'passes: for pass in passes {
        if pass.level == level {
            push_pass(text, pass)?;
        }
    }
    Ok(())
}

/// Appends the line of a level.
fn push_level(text: &mut Vec<u8>, level: &LevelRecord) -> Result<(), AllocError>
    requires { IsSome level.now.layout }
    ensures { OnOk result
        (text.new.items ≡ text.old.items ++ cells.level_cells_line (level_cells level.now)) }
{
    push_level_front(text, level.level)?;
    push_layout(text, &layout_of(level.layout))
}

/// Appends the lines of the levels, each behind those of its passes.
fn push_levels(
    text: &mut Vec<u8>,
    passes: &[PassRecord],
    levels: &[LevelRecord],
) -> Result<(), AllocError>
    requires passes { All (λ p. IsSome p.layout) passes.now }
    requires levels { All (λ l. IsSome l.layout) levels.now }
    ensures { OnOk result (text.new.items
        ≡ text.old.items ++ flat_map (cells.level_cells_text (map pass_cells passes.now))
        (map level_cells levels.now)) }
{
    'levels: for level in levels {
        push_passes(text, passes, level.level)?;
        push_level(text, level)?;
    }
    Ok(())
}

/// The cells file of a run whose layouts are all there. The layout before the first level comes
/// first. Then each level has its passes that have a candidate, each with how many cells are taken
/// and the greatest of them. Behind these passes is the layout after the level.
pub fn cells_text(alloc: Global, run: &Run) -> Result<Vec<u8>, AllocError>
    requires { HasLayouts run.now }
    ensures told { IfOk result (λ text. text.items ≡ cells.account_cells_text (run_cells run.now)) }
    ensures text { IfOk result (λ text. (a : CellsAccount) → TellsCells (Some a) run.now
        → text.items ≡ cells.account_cells_text a) }
{
    let mut text = Vec::from_slice(alloc, b"start: ")?;
    push_layout(&mut text, &layout_of(run.first_layout()))?;
    push_levels(&mut text, run.passes(), run.levels())?;
    Ok(text)
}
