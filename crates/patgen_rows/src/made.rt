//! Pieces that are made from numbers: the dictionary of `sample`, letters, words over them, and the
//! cells of a root.
ghost use Rattle.std.specs.Prelude.{◌<◌};

use pg_draws::Draws;
use pg_top::sample_text;
use pg_words::limits::{COUNT_MAX, SEED_MAX};
use std::alloc::{AllocError, Global};
use std::io;

/// The letters of ASCII that spell a letter of a made translate file.
const ALPHABET: [u8; 52] = *b"abcdefghijklmnopqrstuvwxyzABCDEFGHIJKLMNOPQRSTUVWXYZ";

/// The spellings of the letters of a made file. Each has `len` bytes, out of the first `alphabet`
/// bytes of `ALPHABET`, and they stand in the order of the letters' numbers.
#[derive(Clone, Copy)]
struct Spellings {
    len: u32,
    alphabet: u32,
}

impl Spellings {
    /// Appends the spelling of the letter with this number.
    fn push(self, bytes: &mut Vec<u8>, number: u32) -> Result<(), AllocError> {
        let mut unit = self.alphabet.saturating_pow(self.len.saturating_sub(1));
        for _ in 0..self.len {
            let digits = number.checked_div(unit).unwrap_or(0);
            let digit = digits.checked_rem(self.alphabet).unwrap_or(0);
            bytes.push(ALPHABET[digit as usize % 52])?;
            unit = unit.checked_div(self.alphabet).unwrap_or(0);
        }
        Ok(())
    }
}

/// A number.
pub(crate) fn number_of(word: &str) -> io::Result<u32> {
    match word.parse() {
        Ok(number) => Ok(number),
        Err(_) => Err(io::Error::other("a number is none")),
    }
}

/// The numbers of a line, which a blank parts: there are `count`, and 0 stands behind them.
fn numbers_of(line: &str, count: usize) -> io::Result<[u32; 5]> {
    let mut numbers = [0; 5];
    let mut found = 0_usize;
    for word in line.split(' ') {
        if let Some(number) = numbers.get_mut(found) {
            *number = number_of(word)?;
        }
        found = found.saturating_add(1);
    }
    if found != count {
        return Err(io::Error::other("other numbers are due"));
    }
    Ok(numbers)
}

/// `sample SEED COUNT`: the dictionary of `sample`.
pub(crate) fn push_sample(alloc: Global, bytes: &mut Vec<u8>, line: &str) -> io::Result<()> {
    let [seed, count, ..] = numbers_of(line, 2)?;
    if seed > SEED_MAX || count > COUNT_MAX {
        return Err(io::Error::other("sample takes no such numbers"));
    }
    bytes.extend_from_slice(&sample_text(alloc, seed, count)?)?;
    Ok(())
}

/// `letters COUNT LEN ALPHABET`: lines of a translate file.
pub(crate) fn push_letters(bytes: &mut Vec<u8>, line: &str) -> io::Result<()> {
    let [count, len, alphabet, ..] = numbers_of(line, 3)?;
    let spellings = Spellings { len, alphabet };
    for number in 0..count {
        bytes.push(b' ')?;
        spellings.push(bytes, number)?;
        bytes.push(b'\n')?;
    }
    Ok(())
}

/// `words SEED COUNT LETTERS LEN ALPHABET`: words over so many letters.
pub(crate) fn push_words(bytes: &mut Vec<u8>, line: &str) -> io::Result<()> {
    let [seed, count, letters, len, alphabet] = numbers_of(line, 5)?;
    if letters == 0 {
        return Err(io::Error::other("words need a letter"));
    }
    let spellings = Spellings { len, alphabet };
    let mut draws = Draws::new(seed);
    for _ in 0..count {
        push_word(bytes, &mut draws, letters, spellings)?;
    }
    Ok(())
}

/// Appends a word of two to eight letters. A hyphen parts two letters whose numbers add up to a
/// multiple of three.
fn push_word(
    bytes: &mut Vec<u8>,
    draws: &mut Draws,
    letters: u32,
    spellings: Spellings,
) -> Result<(), AllocError>
    requires { 0 < letters }
{
    let more = draws.next_below(7) + 1;
    let mut before = draws.next_below(letters as usize) as u32;
    spellings.push(bytes, before)?;
    for _ in 0..more {
        let number = draws.next_below(letters as usize) as u32;
        if before.saturating_add(number) % 3 == 0 {
            bytes.push(b'-')?;
        }
        spellings.push(bytes, number)?;
        before = number;
    }
    bytes.push(b'\n')?;
    Ok(())
}

/// `cells SIGNS`: the unused cell 0 of a packed table and those of its root, which has so many
/// signs and no child.
pub(crate) fn push_cells(bytes: &mut Vec<u8>, line: &str) -> io::Result<()> {
    let [signs, ..] = numbers_of(line, 1)?;
    for sign in 0..=signs {
        let [_, _, high, low] = sign.to_be_bytes();
        bytes.extend_from_slice(&[high, low, 0, 0, 0, 0, 0, 0, 0, 0])?;
    }
    Ok(())
}
