//! A word that is lent by its dictionary.
ghost use Rattle.std.specs.Prelude.{◌≡◌, length};

use pg_types::{Sign, Weight};

/// A word, lent by its dictionary. Its four slices have one length, that of the word in signs. They
/// are parts of the dictionary's store, so a `WordRef` does not outlive its dictionary.
///
/// Position `p` has `p` signs of the word before it.
#[derive(Clone, Copy, Debug)]
pub struct WordRef<'a> {
    /// The edge, the letters of the word, and the edge again.
    pub signs: &'a [Sign],
    /// Whether position `p` has a hyphen.
    pub hyphens: &'a [bool],
    /// The weight of position `p`.
    pub weights: &'a [Weight],
    /// The weight of the word. Each position without a weight of its own has this one.
    pub weight: Weight,
    /// Whether position `p` counts: false exactly where it is marked don't-care.
    pub cares: &'a [bool],
    pub ghost hyphens_len: { length hyphens.now ≡ length signs.now },
    pub ghost weights_len: { length weights.now ≡ length signs.now },
    pub ghost cares_len: { length cares.now ≡ length signs.now },
}

impl<'a> WordRef<'a> {
    /// The signs of the word: the edge, its letters, and the edge again.
    pub fn signs(&self) -> &'a [Sign]
        ensures { result.now ≡ self.now.signs.now }
    {
        self.signs
    }

    /// Whether each position has a hyphen.
    pub fn hyphens(&self) -> &'a [bool]
        ensures { result.now ≡ self.now.hyphens.now }
    {
        self.hyphens
    }

    /// The weight of each position.
    pub fn weights(&self) -> &'a [Weight]
        ensures { result.now ≡ self.now.weights.now }
    {
        self.weights
    }

    /// The weight of the word.
    pub fn weight(&self) -> Weight
        ensures { result ≡ self.now.weight }
    {
        self.weight
    }

    /// Whether each position counts: false exactly where it is marked don't-care.
    pub fn cares(&self) -> &'a [bool]
        ensures { result.now ≡ self.now.cares.now }
    {
        self.cares
    }
}
