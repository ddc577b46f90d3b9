//! The starts of strings in the words. Those of a string are among those of the string that is
//! shorter by a sign.
ghost use Rattle.std.specs.Prelude.{◌≡◌, ◌≤◌, ◌+◌, ◌++◌, [], length, take, map, slice_index_or, IfOk, OnOk, All};
ghost use Rattle.std.specs.List.{filter, filter_map};
ghost use Rattle.pg_types.specs.declared.limits.TheConstants.{PATTERN_SIGNS_MAX};
ghost use Rattle.pg_prune.specs.Inside.positions.Trails.{IsStart, IsTrail, starts_in, all_starts as all_starts_of, continues_with as continues_with_by, starts_of as starts_by, last_list, number_at_dot as number_by};

use pg_dict::Dictionary;
use pg_translate::Table;
use pg_types::Sign;
use std::alloc::{AllocError, Global};

/// A start of a string in a word.
#[derive(Clone, Copy)]
pub(crate) struct Start {
    /// The number of the word, from 0.
    pub word: usize,
    /// How many positions in reach stand before those of the word.
    pub before: usize,
    /// How many signs of the word stand before the string.
    pub at: usize,
}

/// A string, with its starts and those of its first parts.
#[derive(Drop)]
pub(crate) struct Trail {
    /// The string.
    pub signs: Vec<Sign>,
    /// The starts of its first parts, from that of one sign up to the whole string.
    pub starts: Vec<Vec<Start>>,
}

/// Every sign of every word as a start.
pub(crate) fn all_starts(
    alloc: Global,
    dictionary: &Dictionary,
    table: &Table,
) -> Result<Vec<Start>, AllocError>
    ensures starts { IfOk result
        (λ starts. starts.items ≡ all_starts_of table.now dictionary.now) }
    ensures known { IfOk result (λ starts. All (IsStart dictionary.now) starts.items) }
{
    let mut starts = Vec::new(alloc);
    let mut before = 0;
    'words: for word in 0..dictionary.len() {
        let w = dictionary.word(word);
        push_starts(&mut starts, word, before, w.signs.len())?;
        if let Some((first, last)) = table.reach(w.signs.len()) {
            before += last + 1 - first;
        }
    }
    Ok(starts)
}

/// Adds every sign of a word as a start.
fn push_starts(
    starts: &mut Vec<Start>,
    word: usize,
    before: usize,
    len: usize,
) -> Result<(), AllocError>
    ensures { OnOk result (starts.new.items ≡ starts.old.items ++ starts_in word before len) }
{
    'signs: for at in 0..len {
        starts.push(Start { word, before, at })?;
    }
    Ok(())
}

/// Of these starts, those where the sign follows the first `len` signs.
fn longer(
    alloc: Global,
    dictionary: &Dictionary,
    starts: &[Start],
    len: usize,
    sign: Sign,
) -> Result<Vec<Start>, AllocError>
    requires known { All (IsStart dictionary.now) starts.now }
    requires few { len ≤ PATTERN_SIGNS_MAX }
    ensures { IfOk result
        (λ found. found.items ≡ filter (continues_with_by dictionary.now len sign) starts.now) }
{
    let mut found = Vec::new(alloc);
    'starts: for start in starts {
        if continues_with(dictionary, *start, len, sign) {
            found.push(*start)?;
        }
    }
    Ok(found)
}

/// Whether this sign follows behind the first `len` signs of a start.
fn continues_with(dictionary: &Dictionary, start: Start, len: usize, sign: Sign) -> bool
    requires known { IsStart dictionary.now start }
    requires few { len ≤ PATTERN_SIGNS_MAX }
    ensures { result ≡ continues_with_by dictionary.now len sign start }
{
    let signs = dictionary.word(start.word).signs;
    let at = start.at + len;
    at < signs.len() && signs[at] == sign
}

/// How many signs two strings have in common before they differ or one of them ends.
fn common(a: &[Sign], b: &[Sign]) -> usize
    ensures first { result ≤ length a.now }
    ensures second { result ≤ length b.now }
    ensures same { take result a.now ≡ take result b.now }
{
    let most = a.len().min(b.len());
    'signs: for i in 0..most {
        if a[i] != b[i] {
            return i;
        }
    }
    most
}

impl Trail {
    /// The trail of the empty string.
    pub fn new(alloc: Global) -> Trail
        ensures signs { result.signs.items ≡ [] }
        ensures starts { result.starts.items ≡ [] }
    {
        Trail {
            signs: Vec::new(alloc),
            starts: Vec::new(alloc),
        }
    }

    /// Goes to another string, where `all` are all starts. What both strings begin with keeps its
    /// starts.
    fn go_to(
        &mut self,
        alloc: Global,
        dictionary: &Dictionary,
        all: &[Start],
        signs: &[Sign],
    ) -> Result<(), AllocError>
        requires trail { IsTrail dictionary.now all.now self.old.signs.items
            (map (λ l. l.items) self.old.starts.items) }
        requires known { All (IsStart dictionary.now) all.now }
        requires few { length signs.now ≤ PATTERN_SIGNS_MAX }
        ensures trail { OnOk result
            (IsTrail dictionary.now all.now signs.now (map (λ l. l.items) self.new.starts.items)) }
        ensures signs { OnOk result (self.new.signs.items ≡ signs.now) }
    {
        let kept = common(self.signs.as_slice(), signs);
        self.signs.truncate(kept);
        self.starts.truncate(kept);
        'signs: for i in kept..signs.len() {
            let starts = longer(alloc, dictionary, self.starts_of(all), i, signs[i])?;
            self.starts.push(starts)?;
            self.signs.push(signs[i])?;
        }
        Ok(())
    }

    /// Goes to another string, where `all` are all starts. Gives the numbers of the positions at
    /// which a dot of it stands.
    pub fn positions(
        &mut self,
        alloc: Global,
        dictionary: &Dictionary,
        table: &Table,
        all: &[Start],
        signs: &[Sign],
        dot: u8,
    ) -> Result<Vec<usize>, AllocError>
        requires trail { IsTrail dictionary.now all.now self.old.signs.items
            (map (λ l. l.items) self.old.starts.items) }
        requires known { All (IsStart dictionary.now) all.now }
        requires few { length signs.now ≤ PATTERN_SIGNS_MAX }
        ensures positions { IfOk result (λ numbers. numbers.items ≡ filter_map
            (number_by table.now dictionary.now dot)
            (starts_by dictionary.now all.now signs.now)) }
        ensures trail { OnOk result
            (IsTrail dictionary.now all.now signs.now (map (λ l. l.items) self.new.starts.items)) }
        ensures signs { OnOk result (self.new.signs.items ≡ signs.now) }
    {
        self.go_to(alloc, dictionary, all, signs)?;
        standing(alloc, dictionary, table, self.starts_of(all), dot)
    }

    /// The starts of the string, where `all` are all starts.
    fn starts_of<'a>(&'a self, all: &'a [Start]) -> &'a [Start]
        ensures { result.now ≡ last_list all.now (map (λ l. l.items) self.now.starts.items) }
    {
        let len = self.starts.len();
        if len == 0 {
            all
        } else {
            self.starts[len - 1].as_slice()
        }
    }
}

/// The number of the position at which the dot of a string stands; none where that is out of reach.
fn number_at_dot(dictionary: &Dictionary, table: &Table, start: Start, dot: u8) -> Option<usize>
    requires { IsStart dictionary.now start }
    ensures { result ≡ number_by table.now dictionary.now dot start }
{
    let (first, last) = table.reach(dictionary.word(start.word).signs.len())?;
    let position = start.at + usize::from(dot);
    if first <= position && position <= last {
        Some(start.before + (position - first))
    } else {
        None
    }
}

/// The numbers of the positions at which the dot of a string stands, by its starts.
fn standing(
    alloc: Global,
    dictionary: &Dictionary,
    table: &Table,
    starts: &[Start],
    dot: u8,
) -> Result<Vec<usize>, AllocError>
    requires { All (IsStart dictionary.now) starts.now }
    ensures { IfOk result (λ numbers. numbers.items
        ≡ filter_map (number_by table.now dictionary.now dot) starts.now) }
{
    let mut numbers = Vec::new(alloc);
    'starts: for start in starts {
        if let Some(number) = number_at_dot(dictionary, table, *start, dot) {
            numbers.push(number)?;
        }
    }
    Ok(numbers)
}
