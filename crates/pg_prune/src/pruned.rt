//! What comes out of pruning.
use pg_patterns::PatternSet;
use std::marker::Model;

/// A position of a word. In what pruning gives, it is the first that needs an entry: without the
/// entry its value would be odd where it is even, or even where it is odd.
#[derive(Clone, Copy, Debug, PartialEq, Eq)]
pub struct Need {
    /// The number of the word in the dictionary, from 1.
    pub word: u64,
    /// The position in the word.
    pub position: u8,
}

/// What comes out of pruning: the patterns that stay, the need of each of their entries, the number
/// of rounds, and how many entries were taken out.
#[derive(Drop)]
pub struct Pruned {
    patterns: PatternSet,
    needs: Vec<Need>,
    rounds: u64,
    removed: u64,
}

impl Model for Pruned {
    ghost use Rattle.pg_prune.specs.Prunes.{Pruning};
    ghost use Rattle.pg_prune.specs.Inside.Needs.{HasNeeds};

    ghost Value = { Pruning };

    ghost view = { λ p. record {
      patterns = p.patterns;
      needs = p.needs.items;
      rounds = p.rounds;
      removed = p.removed;
    } };

    ghost invariant = { λ p. HasNeeds (record {
      patterns = p.patterns;
      needs = p.needs.items;
      rounds = p.rounds;
      removed = p.removed;
    }) };
}

impl Pruned {
    ghost use Rattle.std.specs.Prelude.{◌≡◌};
    ghost use Rattle.pg_prune.specs.Inside.Needs.{HasNeeds};

    /// The patterns, needs and numbers as one.
    pub(crate) fn new(patterns: PatternSet, needs: Vec<Need>, rounds: u64, removed: u64) -> Pruned
        requires { HasNeeds (record {
          patterns = patterns;
          needs = needs.items;
          rounds = rounds;
          removed = removed;
        }) }
        ensures { result ≡ record {
          patterns = patterns;
          needs = needs.items;
          rounds = rounds;
          removed = removed;
        } }
    {
        Pruned {
            patterns,
            needs,
            rounds,
            removed,
        }
    }

    /// The patterns that stay.
    pub fn patterns(&self) -> &PatternSet
        ensures { result.now ≡ self.now.patterns }
    {
        &self.patterns
    }

    /// The needs of the entries that stay, one for each in their order. No position is 0.
    pub fn needs(&self) -> &[Need]
        ensures value { result.now ≡ self.now.needs }
        ensures kept { HasNeeds self.now }
    {
        self.needs.as_slice()
    }

    /// The number of rounds, the last of which took out nothing.
    pub fn rounds(&self) -> u64
        ensures { result ≡ self.now.rounds }
    {
        self.rounds
    }

    /// How many entries were taken out.
    pub fn removed(&self) -> u64
        ensures { result ≡ self.now.removed }
    {
        self.removed
    }
}
