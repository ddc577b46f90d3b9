//! A spelling in a room of fixed size.
ghost use Rattle.std.specs.Prelude.{◌≤◌};
ghost use Rattle.pg_translate.specs.declared.spellings.TheConstants.{SPELLING_MAX};

/// The most bytes that a spelling may have.
pub const SPELLING_MAX: usize = 8;

/// A text of at most [`SPELLING_MAX`] bytes: the first `size` of `bytes`.
#[derive(Clone, Copy)]
pub(crate) struct Text {
    bytes: [u8; SPELLING_MAX],
    size: u8,
    ghost within: { size ≤ SPELLING_MAX },
}

impl Text {
    ghost use Rattle.std.specs.Prelude.{◌≡◌, ◌≤◌, length};
    ghost use Rattle.pg_translate.specs.Inside.spellings.Texts.{text_of};

    /// The text of these bytes.
    pub(crate) fn of(bytes: &[u8]) -> Text
        requires { length bytes.now ≤ SPELLING_MAX }
        ensures { text_of result ≡ bytes.now }
    {
        let mut room = [0; SPELLING_MAX];
        room[..bytes.len()].copy_from_slice(bytes);
        Text {
            bytes: room,
            size: bytes.len() as u8,
        }
    }

    /// Its bytes.
    pub(crate) fn as_bytes(&self) -> &[u8]
        ensures { result.now ≡ text_of self.now }
    {
        &self.bytes[..self.size as usize]
    }
}
