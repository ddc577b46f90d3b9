//! The pieces of a content.
use crate::keyword::Keyword;
use crate::made::{push_cells, push_letters, push_sample, push_words};
use crate::table::Table;
use std::alloc::{AllocError, Global};
use std::io;

/// How often a piece stands, and the piece: `3 times > a` is the line a three times.
pub(crate) fn cut_times(line: &str) -> (usize, &str) {
    if let Some((count, simple)) = line.split_once(" times ")
        && let Ok(times) = count.parse()
    {
        return (times, simple);
    }
    (1, line)
}

/// Appends bytes so many times.
pub(crate) fn push_times(text: &mut Vec<u8>, times: usize, piece: &[u8]) -> Result<(), AllocError> {
    for _ in 0..times {
        text.extend_from_slice(piece)?;
    }
    Ok(())
}

/// Appends the bytes of a piece that stands once.
pub(crate) fn push_piece(
    table: &Table<'_>,
    bytes: &mut Vec<u8>,
    keyword: Keyword,
    rest: &str,
) -> io::Result<()> {
    match keyword {
        Keyword::TextAndLf => push_line(bytes, rest),
        Keyword::Text => push_text(bytes, rest),
        Keyword::Named => Ok(bytes.extend_from_slice(table.named(rest)?)?),
        Keyword::Joined => push_joined(table, bytes, rest),
        Keyword::Bytes => push_numbers(bytes, rest),
        Keyword::Sample => push_sample(table.alloc, bytes, rest),
        Keyword::Letters => push_letters(bytes, rest),
        Keyword::Words => push_words(bytes, rest),
        _ => push_cells(bytes, rest),
    }
}

/// Appends a text and an LF.
fn push_line(bytes: &mut Vec<u8>, text: &str) -> io::Result<()> {
    push_text(bytes, text)?;
    bytes.push(b'\n')?;
    Ok(())
}

/// The byte of an escape, of which this stands behind its backslash, and how many bytes it has
/// there.
fn escaped(rest: &str) -> Option<(u8, usize)> {
    match rest.as_bytes().first()? {
        b'r' => Some((b'\r', 1)),
        b't' => Some((b'\t', 1)),
        b's' => Some((b' ', 1)),
        b'\\' => Some((b'\\', 1)),
        b'x' => hexadecimal(rest),
        _ => None,
    }
}

/// The byte of two hexadecimal digits behind an x, and how many bytes these are.
fn hexadecimal(rest: &str) -> Option<(u8, usize)> {
    match u8::from_str_radix(rest.get(1..3).unwrap_or(""), 16) {
        Ok(byte) => Some((byte, 3)),
        Err(_) => None,
    }
}

/// Appends the bytes of a text, in which a backslash begins an escape.
pub(crate) fn push_text(bytes: &mut Vec<u8>, text: &str) -> io::Result<()> {
    let mut rest = text;
    for _ in 0..text.len() {
        let Some((plain, escape)) = rest.split_once('\\') else {
            break;
        };
        bytes.extend_from_slice(plain.as_bytes())?;
        rest = push_escape(bytes, escape)?;
    }
    bytes.extend_from_slice(rest.as_bytes())?;
    Ok(())
}

/// Appends the byte of an escape, and gives what stands behind it.
fn push_escape<'t>(bytes: &mut Vec<u8>, escape: &'t str) -> io::Result<&'t str> {
    let Some((byte, len)) = escaped(escape) else {
        return Err(io::Error::other("an escape is none of those that a table has"));
    };
    bytes.push(byte)?;
    Ok(escape.get(len..).unwrap_or(""))
}

/// Appends the bytes that are written as numbers.
fn push_numbers(bytes: &mut Vec<u8>, numbers: &str) -> io::Result<()> {
    for number in numbers.split(' ') {
        let Ok(byte) = number.parse() else {
            return Err(io::Error::other("a byte is none"));
        };
        bytes.push(byte)?;
    }
    Ok(())
}

/// Appends a line for each word of one content with each word of another.
fn push_joined(table: &Table<'_>, bytes: &mut Vec<u8>, names: &str) -> io::Result<()> {
    let (one, other) = names.split_once(' ').unwrap_or((names, ""));
    let one = table.named(one)?;
    let other = table.named(other)?;
    for front in one.split(|byte| *byte == b' ') {
        push_pairs(bytes, front, other)?;
    }
    Ok(())
}

/// Appends a line for each word of a text, which a blank parts: these bytes, a hyphen and the word.
/// It ends with CR and LF.
fn push_pairs(bytes: &mut Vec<u8>, front: &[u8], text: &[u8]) -> Result<(), AllocError> {
    for word in text.split(|byte| *byte == b' ') {
        bytes.extend_from_slice(front)?;
        bytes.push(b'-')?;
        bytes.extend_from_slice(word)?;
        bytes.extend_from_slice(b"\r\n")?;
    }
    Ok(())
}
