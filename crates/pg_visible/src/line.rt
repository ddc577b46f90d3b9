//! A line of a text, and how bytes are made visible in it.
ghost use Rattle.std.specs.Prelude.{◌≡◌, ◌<◌, true, IfOk};
ghost use Rattle.std.specs.List.{list_all};
ghost use Rattle.pg_visible.specs.Inside.Bytes.{is_printable as is_printable_byte};

use itoa::Buffer;
use std::alloc::{AllocError, Global};
use std::marker::Model;

/// The most bytes of a name or of a piece of a file that a line shows.
const FRONT_MAX: usize = 200;

/// A piece of a line.
#[derive(Clone, Copy)]
pub enum Part<'a> {
    /// Words of the program.
    Say(&'a str),
    /// A name or an argument of a call, made visible, and cut where it is long.
    Name(&'a str),
    /// Bytes of a file, made visible, and cut where they are many.
    Show(&'a [u8]),
    /// The numbers of bytes, as `C3 9F`.
    Hex(&'a [u8]),
    /// A number.
    Count(usize),
    /// A character.
    Char(char),
    /// A byte, made visible.
    Byte(u8),
}

/// A line without its end.
#[derive(Drop)]
pub(crate) struct Line {
    bytes: Vec<u8>,
}

impl Model for Line {
    ghost use Rattle.std.specs.Prelude.{◌≡◌, ℕ, List, true};
    ghost use Rattle.std.specs.List.{list_all};
    ghost use Rattle.pg_visible.specs.Inside.Bytes.{is_printable};

    ghost Value = { List ℕ };

    ghost view = { λ l. l.bytes.items };

    ghost invariant = { λ l. list_all is_printable l.bytes.items ≡ true };
}

/// Whether a byte is no control byte.
fn is_printable(byte: u8) -> bool
    ensures { result ≡ is_printable_byte byte }
{
    32 <= byte && byte != 127
}

/// Whether a character cannot be seen although it is no blank: the controls, the soft hyphen, and
/// marks that order or join what stands around them.
pub fn is_invisible(c: char) -> bool {
    c.is_control()
        || matches!(c, '\u{AD}' | '\u{200B}'..='\u{200F}' | '\u{2028}'..='\u{202E}')
        || matches!(c, '\u{2060}'..='\u{206F}' | '\u{FEFF}')
}

/// The digit of a number below 16.
fn hex_digit(number: u8) -> u8
    requires { number < 16 }
{
    if number < 10 {
        b'0' + number
    } else {
        b'A' + (number - 10)
    }
}

impl Line {
    ghost use Rattle.std.specs.Prelude.{◌≡◌, ◌++◌, ◌∷◌, [], true, if◌then◌else◌, OnOk, IfOk};
    ghost use Rattle.std.specs.List.{list_all};
    ghost use Rattle.pg_visible.specs.Inside.Bytes.{is_printable as is_printable_byte, width_of, caret_under};

    /// A line of nothing.
    pub fn new(alloc: Global) -> Line
        ensures { result ≡ [] }
    {
        Line {
            bytes: Vec::new(alloc),
        }
    }

    /// Its bytes.
    pub fn as_bytes(&self) -> &[u8]
        ensures value { result.now ≡ self.now }
        ensures printable { list_all is_printable_byte result.now ≡ true }
    {
        &self.bytes
    }

    /// How many columns it takes: as many as it has characters.
    fn width(&self) -> usize
        ensures { result ≡ width_of self.now }
    {
        self.bytes
            .iter()
            .filter(|byte| **byte < 128 || 192 <= **byte)
            .count()
    }

    /// Its bytes and an LF.
    pub fn whole(&self, alloc: Global) -> Result<Vec<u8>, AllocError>
        ensures value { IfOk result (λ whole. whole.items ≡ self.now ++ 10 ∷ []) }
        ensures printable { list_all is_printable_byte self.now ≡ true }
    {
        let mut whole = Vec::from_slice(alloc, &self.bytes)?;
        whole.push(b'\n')?;
        Ok(whole)
    }

    /// A line of a caret that stands under what follows `above`.
    pub fn caret(alloc: Global, above: &Line) -> Result<Line, AllocError>
        ensures { IfOk result (λ line. line ≡ caret_under above.now) }
    {
        let mut line = Line::new(alloc);
        'columns: for column in 0..above.width() {
            line.push(b' ')?;
        }
        line.push(b'^')?;
        Ok(line)
    }

    /// Appends a byte, unless it is a control byte.
    fn push(&mut self, byte: u8) -> Result<(), AllocError>
        ensures { OnOk result
            (self.new ≡ (if is_printable_byte byte then self.old ++ byte ∷ [] else self.old)) }
    {
        if is_printable(byte) {
            self.bytes.push(byte)?;
        }
        Ok(())
    }

    /// Appends bytes, without the control bytes among them.
    fn push_all(&mut self, bytes: &[u8]) -> Result<(), AllocError> {
        for byte in bytes {
            self.push(*byte)?;
        }
        Ok(())
    }

    /// Appends the number of a byte, as two digits.
    fn push_digits(&mut self, byte: u8) -> Result<(), AllocError> {
        self.push(hex_digit(byte / 16))?;
        self.push(hex_digit(byte % 16))
    }

    /// Appends the numbers of bytes, each as `<0D>`.
    fn push_numbers(&mut self, bytes: &[u8]) -> Result<(), AllocError> {
        for byte in bytes {
            self.push(b'<')?;
            self.push_digits(*byte)?;
            self.push(b'>')?;
        }
        Ok(())
    }

    /// Appends a character, or the numbers of its bytes where it cannot be seen.
    fn push_char(&mut self, c: char) -> Result<(), AllocError> {
        let mut room = [0; 4];
        let bytes = c.encode_utf8(&mut room).as_bytes();
        if is_invisible(c) {
            self.push_numbers(bytes)
        } else {
            self.push_all(bytes)
        }
    }

    /// Appends a text, and the numbers of the bytes of each character that cannot be seen.
    fn push_text(&mut self, text: &str) -> Result<(), AllocError> {
        for c in text.chars() {
            self.push_char(c)?;
        }
        Ok(())
    }

    /// Appends bytes: text as it is, and the numbers of all that is no text or cannot be seen.
    pub fn show(&mut self, bytes: &[u8]) -> Result<(), AllocError> {
        for chunk in bytes.utf8_chunks() {
            self.push_text(chunk.valid())?;
            self.push_numbers(chunk.invalid())?;
        }
        Ok(())
    }

    /// Appends bytes as [`show`](Line::show) does, of many only the first.
    fn show_front(&mut self, bytes: &[u8]) -> Result<(), AllocError> {
        match bytes.get(..FRONT_MAX) {
            Some(front) if FRONT_MAX < bytes.len() => {
                self.show(front)?;
                self.push_all(b"...")
            }
            _ => self.show(bytes),
        }
    }

    /// Appends the numbers of bytes with blanks between them.
    fn push_hex(&mut self, bytes: &[u8]) -> Result<(), AllocError> {
        let mut is_first = true;
        for byte in bytes {
            if !is_first {
                self.push(b' ')?;
            }
            self.push_digits(*byte)?;
            is_first = false;
        }
        Ok(())
    }

    /// Appends a piece.
    fn add(&mut self, part: &Part<'_>) -> Result<(), AllocError> {
        match part {
            Part::Say(words) => self.push_text(words),
            Part::Name(name) => self.show_front(name.as_bytes()),
            Part::Show(bytes) => self.show_front(bytes),
            Part::Hex(bytes) => self.push_hex(bytes),
            Part::Char(c) => self.push_char(*c),
            Part::Byte(byte) => self.show(&[*byte]),
            Part::Count(number) => self.push_all(Buffer::new().format(*number).as_bytes()),
        }
    }

    /// Appends the piece whose number the words begin with, and the words behind that digit.
    fn add_numbered(&mut self, words: &str, parts: &[Part<'_>]) -> Result<(), AllocError> {
        let Some((digit, words)) = words.as_bytes().split_first() else {
            return Ok(());
        };
        if let Some(part) = parts.get(usize::from(digit.wrapping_sub(b'0'))) {
            self.add(part)?;
        }
        self.push_all(words)
    }

    /// Appends words of the program. A `$` with a digit behind it stands for the piece with this
    /// number, from 0.
    pub fn say(&mut self, words: &str, parts: &[Part<'_>]) -> Result<(), AllocError> {
        let mut pieces = words.split('$');
        if let Some(front) = pieces.next() {
            self.push_text(front)?;
        }
        for piece in pieces {
            self.add_numbered(piece, parts)?;
        }
        Ok(())
    }
}

/// Bytes of a name or a file as a line shows them. Text is shown as it is. Each byte that is no
/// text, or of a character that cannot be seen, is shown by its number, as `<0D>`. Of more than
/// `most` bytes only the first are shown.
pub fn visible(alloc: Global, bytes: &[u8], most: usize) -> Result<Vec<u8>, AllocError>
    ensures { IfOk result (λ shown. list_all is_printable_byte shown.items ≡ true) }
{
    let mut line = Line::new(alloc);
    line.show(bytes.get(..most).unwrap_or(bytes))?;
    line.as_bytes().to_vec(alloc)
}
