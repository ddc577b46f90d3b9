//! A file with one change, for each change that there is.
use std::alloc::{AllocError, Global};

/// The name of a file, its bytes with one change, and the number of the line that is changed.
#[derive(Drop)]
pub(crate) struct Change<'a> {
    pub name: &'a str,
    pub bytes: Vec<u8>,
    pub line: usize,
}

/// The bytes of a file from `start` up to `end`, which stand in the line with this number.
#[derive(Clone, Copy)]
struct Place {
    start: usize,
    end: usize,
    line: usize,
}

/// Appends the changes of the bytes of a line: the lowest bit of each is changed.
fn push_byte_changes<'a>(
    changes: &mut Vec<Change<'a>>,
    alloc: Global,
    name: &'a str,
    file: &[u8],
    whole: Place,
) -> Result<(), AllocError> {
    let text = file.get(whole.start..whole.end).unwrap_or(&[]);
    for (index, byte) in text.iter().enumerate() {
        let start = whole.start.saturating_add(index);
        let end = start.saturating_add(1);
        let place = Place {
            start,
            end,
            ..whole
        };
        changes.push(changed(alloc, name, file, place, &[*byte ^ 1])?)?;
    }
    Ok(())
}

/// Appends the changes of a file: the lowest bit of each byte is changed, each line is left out,
/// and each line stands twice. Where a line stands twice, the second one is the changed line.
pub(crate) fn push_changes<'a>(
    changes: &mut Vec<Change<'a>>,
    alloc: Global,
    name: &'a str,
    file: &[u8],
) -> Result<(), AllocError> {
    let mut start = 0_usize;
    let mut line = 0_usize;
    for text in file.split_inclusive(|byte| *byte == b'\n') {
        line = line.saturating_add(1);
        let end = start.saturating_add(text.len());
        let whole = Place { start, end, line };
        push_byte_changes(changes, alloc, name, file, whole)?;
        changes.push(changed(alloc, name, file, whole, b"")?)?;
        let second = Place {
            start,
            end: start,
            line: line.saturating_add(1),
        };
        changes.push(changed(alloc, name, file, second, text)?)?;
        start = end;
    }
    Ok(())
}

/// A file with other bytes at a place, which is a change of the line there.
fn changed<'a>(
    alloc: Global,
    name: &'a str,
    file: &[u8],
    place: Place,
    by: &[u8],
) -> Result<Change<'a>, AllocError> {
    let Place { start, end, line } = place;
    let mut bytes = file.get(..start).unwrap_or(file).to_vec(alloc)?;
    bytes.extend_from_slice(by)?;
    bytes.extend_from_slice(file.get(end..).unwrap_or(&[]))?;
    Ok(Change { name, bytes, line })
}
