//! A run that skips no pass, over the calls of an engine: a second statement of what a run is. Its
//! sums saturate, but stay far below the limit.
ghost use Rattle.pg_types.specs.Inside.Limits.{begun_before_pass};
ghost use Rattle.std.specs.Prelude.{◌≡◌, ◌+◌, ◌*◌, ◌<◌, ◌≤◌, [], true, length, OnOk, vec_len};
ghost use Rattle.pg_types.specs.declared.limits.TheConstants.{LEVEL_MAX, WEIGHT_MAX, WORD_LETTERS_MAX};
ghost use Rattle.pg_types.specs.Inside.Ranges.{IsLevel};
ghost use Rattle.pg_types.specs.Inside.Signs.{SignsWithin};
ghost use Rattle.pg_dict.specs.Inside.SoundWords.{IsWord, SignsAtMost};
ghost use Rattle.pg_dict.specs.Inside.LentWords.{lent_word};
ghost use Rattle.pg_types.specs.Inside.counting.Counts.{is_counted};
ghost use Rattle.pg_driver.specs.Inside.level.States.{IsPass};
ghost use Rattle.pg_runs.specs.Inside.Keeping.{AreAtMost, KeepsPass};

use pg_dict::{Dictionary, WordRef};
use pg_driver::{LevelRecord, PassRecord};
use pg_select::{Choice, Engine, Pass, WordState, decide, status};
use pg_translate::Table;
use pg_types::{Cursor, LevelParams, Mark, Params, Sign, Totals, Weight};
use std::alloc::Global;
use std::test::Fail;

/// The length and the dot of each pass of a level of lengths 1 to 4, in their order.
const PASSES: [(u8, u8); 14] = [
    (1, 0),
    (1, 1),
    (2, 1),
    (2, 0),
    (2, 2),
    (3, 1),
    (3, 2),
    (3, 0),
    (3, 3),
    (4, 2),
    (4, 1),
    (4, 3),
    (4, 0),
    (4, 4),
];

/// More passes than these runs have.
const MANY_PASSES: usize = 1_000;

/// More windows than are counted in a pass of these runs.
const MANY_WINDOWS: u64 = 1_000_000;

/// More than the sums of these runs.
const GREAT_SUM: u64 = 1_000_000_000_000;

/// What a run records.
#[derive(Drop)]
pub(crate) struct PlainRun {
    /// Every pass, also where it has no candidate.
    pub passes: Vec<PassRecord>,
    /// Every level.
    pub levels: Vec<LevelRecord>,
    /// The totals of the final patterns.
    pub totals: Totals,
}

/// Whether a pass left no candidate: each was chosen or is hopeless.
fn left_none(pass: &PassRecord) -> bool {
    pass.chosen.checked_add(pass.hopeless) == Some(pass.candidates)
}

/// Whether a pass can be skipped: in its level a pass of windows that are shorter by a sign, with
/// the same dot or the dot before, left no candidate.
fn is_skippable(earlier: &[PassRecord], pass: &PassRecord) -> bool {
    for shorter in earlier {
        if left_none(shorter)
            && shorter.level == pass.level
            && shorter.len.checked_add(1) == Some(pass.len)
            && (shorter.dot == pass.dot || shorter.dot.checked_add(1) == Some(pass.dot))
        {
            return true;
        }
    }
    false
}

impl PlainRun {
    /// How many passes cannot be skipped.
    pub(crate) fn needed(&self) -> usize {
        let mut needed = 0;
        'passes: for i in 0..self.passes.len() {
            if !is_skippable(&self.passes[..i], &self.passes[i]) {
                needed += 1;
            }
        }
        needed
    }
}

/// The status of position `p` of a word, where that is in reach.
fn mark_at(table: &Table, w: &WordRef<'_>, found: &WordState, p: usize) -> Option<Mark>
    requires within { p < length w.now.signs.now }
    requires short { length w.now.signs.now ≤ WORD_LETTERS_MAX + 2 }
{
    if p <= usize::from(table.left()) || w.signs.len() - p <= usize::from(table.right()) {
        return None;
    }
    Some(status(w.hyphens[p], w.cares[p], found.value(p)))
}

/// Adds a position of this status and weight to the totals.
fn add_mark(totals: &mut Totals, mark: Mark, weight: Weight) {
    let weight = u64::from(weight);
    match mark {
        Mark::Found => totals.good = totals.good.saturating_add(weight),
        Mark::Error => totals.bad = totals.bad.saturating_add(weight),
        Mark::Missed => totals.missed = totals.missed.saturating_add(weight),
        Mark::Nothing | Mark::DontCare => {}
    }
}

/// Adds the positions of a word to the totals.
fn add_word(table: &Table, w: &WordRef<'_>, found: &WordState, totals: &mut Totals)
    requires { length w.now.signs.now ≤ WORD_LETTERS_MAX + 2 }
{
    'positions: for p in 0..w.signs.len() {
        if let Some(mark) = mark_at(table, w, found, p) {
            add_mark(totals, mark, w.weights[p]);
        }
    }
}

/// The totals of the words by the patterns of an engine.
fn totals<E: Engine>(engine: &E, dictionary: &Dictionary, table: &Table) -> Totals
    requires { SignsAtMost (E.meaning engine.now).signs dictionary.now }
{
    let mut found = WordState::new();
    let mut totals = Totals {
        good: 0,
        bad: 0,
        missed: 0,
    };
    'words: for i in 0..dictionary.len() {
        let word = dictionary.word(i);
        engine.hyphenate(word, &mut found);
        add_word(table, &word, &found, &mut totals);
    }
    totals
}

/// Whether a position of this status counts as good or as bad at a level, where it counts.
fn counts_as(level: u8, mark: Mark) -> Option<bool> {
    match (level % 2, mark) {
        (1, Mark::Missed) | (0, Mark::Error) => Some(true),
        (1, Mark::Nothing) | (0, Mark::Found) => Some(false),
        _ => None,
    }
}

/// Counts a window. `seen` is the number of windows so far.
fn count_window<E: Engine>(
    engine: &mut E,
    window: &[Sign],
    good: bool,
    weight: Weight,
    seen: &mut u64,
) -> Result<(), Fail>
    requires len { length window.now ≡ (E.meaning engine.old).pass.len }
    requires signs { SignsWithin (E.meaning engine.old).signs window.now }
    requires weight { weight ≤ WEIGHT_MAX }
    requires sums { AreAtMost (E.meaning engine.old).counts (WEIGHT_MAX * seen.old) }
    ensures kept { OnOk result (KeepsPass (E.meaning engine.old) (E.meaning engine.new)) }
    ensures sums { OnOk result (AreAtMost (E.meaning engine.new).counts (WEIGHT_MAX * seen.new)) }
{
    if *seen >= MANY_WINDOWS {
        return Err(Fail::new("too many windows"));
    }
    engine.count(window, good, weight)?;
    *seen += 1;
    Ok(())
}

/// Counts the window at position `p` of a word, which has this status, where that counts.
fn count_at<E: Engine>(
    engine: &mut E,
    pass: Pass,
    w: &WordRef<'_>,
    found: &WordState,
    p: usize,
    mark: Mark,
    seen: &mut u64,
) -> Result<(), Fail>
    requires pass { (E.meaning engine.old).pass.len ≡ pass.len }
    requires word { IsWord (lent_word w.now) }
    requires signs { SignsWithin (E.meaning engine.old).signs w.now.signs.now }
    requires within { p < length w.now.signs.now }
    requires sums { AreAtMost (E.meaning engine.old).counts (WEIGHT_MAX * seen.old) }
    ensures kept { OnOk result (KeepsPass (E.meaning engine.old) (E.meaning engine.new)) }
    ensures sums { OnOk result (AreAtMost (E.meaning engine.new).counts (WEIGHT_MAX * seen.new)) }
{
    let Some(good) = counts_as(pass.level, mark) else {
        return Ok(());
    };
    let (dot, len) = (usize::from(pass.dot), usize::from(pass.len));
    if p < dot || w.signs.len() - (p - dot) < len || found.covered(p) {
        return Ok(());
    }
    let from = p - dot;
    count_window(engine, &w.signs[from..from + len], good, w.weights[p], seen)
}

/// Counts the windows of a word.
fn count_word<E: Engine>(
    engine: &mut E,
    table: &Table,
    pass: Pass,
    w: &WordRef<'_>,
    found: &mut WordState,
    seen: &mut u64,
) -> Result<(), Fail>
    requires pass { (E.meaning engine.old).pass.len ≡ pass.len }
    requires word { IsWord (lent_word w.now) }
    requires signs { SignsWithin (E.meaning engine.old).signs w.now.signs.now }
    requires sums { AreAtMost (E.meaning engine.old).counts (WEIGHT_MAX * seen.old) }
    ensures kept { OnOk result (KeepsPass (E.meaning engine.old) (E.meaning engine.new)) }
    ensures sums { OnOk result (AreAtMost (E.meaning engine.new).counts (WEIGHT_MAX * seen.new)) }
{
    engine.hyphenate(*w, found);
    'positions: for p in 0..w.signs.len() {
        if let Some(mark) = mark_at(table, w, found, p) {
            count_at(engine, pass, w, found, p, mark, seen)?;
        }
    }
    Ok(())
}

/// Counts the windows of all words.
pub(crate) fn count_words<E: Engine>(
    engine: &mut E,
    dictionary: &Dictionary,
    table: &Table,
    pass: Pass,
) -> Result<(), Fail>
    requires pass { (E.meaning engine.old).pass.len ≡ pass.len }
    requires signs { SignsAtMost (E.meaning engine.old).signs dictionary.now }
    requires fresh { (E.meaning engine.old).counts ≡ [] }
    ensures { OnOk result (KeepsPass (E.meaning engine.old) (E.meaning engine.new)) }
{
    let mut found = WordState::new();
    let mut seen = 0;
    'words: for i in 0..dictionary.len() {
        count_word(
            engine,
            table,
            pass,
            &dictionary.word(i),
            &mut found,
            &mut seen,
        )?;
    }
    Ok(())
}

/// Chooses the candidate at the cursor, which has these sums of weights, gives it up or leaves it.
fn choose_at<E: Engine>(
    engine: &mut E,
    params: &LevelParams,
    at: &Cursor,
    good: u64,
    bad: u64,
    record: &mut PassRecord,
) -> Result<(), Fail>
    requires level { IsLevel params.now }
    requires counted { is_counted (E.meaning engine.old).counts at.now ≡ true }
    ensures { OnOk result (KeepsPass (E.meaning engine.old) (E.meaning engine.new)) }
{
    if good >= GREAT_SUM || bad >= GREAT_SUM {
        return Err(Fail::new("too great a sum"));
    }
    record.candidates = record.candidates.saturating_add(1);
    match decide(good, bad, params) {
        Choice::Chosen => {
            engine.choose(at)?;
            record.chosen = record.chosen.saturating_add(1);
            record.good = record.good.saturating_add(good);
            record.bad = record.bad.saturating_add(bad);
        }
        Choice::Hopeless => {
            engine.give_up(at)?;
            record.hopeless = record.hopeless.saturating_add(1);
        }
        Choice::Left => {}
    }
    Ok(())
}

/// Chooses, gives up or leaves each candidate, in the order of signs.
fn choose_all<E: Engine>(
    engine: &mut E,
    params: &LevelParams,
    record: &mut PassRecord,
) -> Result<(), Fail>
    requires level { IsLevel params.now }
    ensures { OnOk result (KeepsPass (E.meaning engine.old) (E.meaning engine.new)) }
{
    let mut at = Cursor::start();
    'candidates: for _ in 0..MANY_WINDOWS {
        let Some((good, bad)) = engine.next_candidate(&mut at) else {
            return Ok(());
        };
        choose_at(engine, params, &at, good, bad, record)?;
    }
    Err(Fail::new("too many candidates"))
}

/// Does a pass.
fn run_pass<E: Engine>(
    engine: &mut E,
    dictionary: &Dictionary,
    table: &Table,
    params: &LevelParams,
    pass: Pass,
) -> Result<PassRecord, Fail>
    requires ranges { IsPass pass }
    requires level { IsLevel params.now }
    requires begun { (E.meaning engine.old).begun < begun_before_pass }
    requires signs { SignsAtMost (E.meaning engine.old).signs dictionary.now }
    ensures begun { OnOk result ((E.meaning engine.new).begun ≡ (E.meaning engine.old).begun + 1) }
    ensures signs { OnOk result ((E.meaning engine.new).signs ≡ (E.meaning engine.old).signs) }
{
    let mut record = PassRecord {
        level: pass.level,
        len: pass.len,
        dot: pass.dot,
        before: totals(engine, dictionary, table),
        candidates: 0,
        chosen: 0,
        hopeless: 0,
        good: 0,
        bad: 0,
        layout: None,
    };
    engine.begin_pass(pass.level, pass.len, pass.dot);
    count_words(engine, dictionary, table, pass)?;
    choose_all(engine, params, &mut record)?;
    record.layout = engine.layout();
    Ok(record)
}

/// Does the passes of a level, and gives the number of windows that they chose.
fn run_passes<E: Engine>(
    engine: &mut E,
    dictionary: &Dictionary,
    table: &Table,
    params: &LevelParams,
    number: u8,
    passes: &mut Vec<PassRecord>,
) -> Result<u64, Fail>
    requires level { IsLevel params.now }
    requires number { (1 ≤ number) × (number ≤ LEVEL_MAX) }
    requires begun { (E.meaning engine.old).begun ≤ vec_len passes.old }
    requires signs { SignsAtMost (E.meaning engine.old).signs dictionary.now }
    ensures begun { OnOk result ((E.meaning engine.new).begun ≤ vec_len passes.new) }
    ensures signs { OnOk result ((E.meaning engine.new).signs ≡ (E.meaning engine.old).signs) }
{
    if params.pat_finish > 4 {
        return Err(Fail::new("a length above 4"));
    }
    let mut chosen = 0_u64;
    'passes: for (len, dot) in PASSES {
        if len < params.pat_start || params.pat_finish < len {
            continue;
        }
        if passes.len() >= MANY_PASSES || dot > len {
            return Err(Fail::new("no such pass"));
        }
        let pass = Pass {
            level: number,
            len,
            dot,
        };
        let record = run_pass(engine, dictionary, table, params, pass)?;
        passes.push(record)?;
        chosen = chosen.saturating_add(record.chosen);
    }
    Ok(chosen)
}

/// Does the run of the levels. Each level has lengths of at most 4.
pub(crate) fn run_plainly<E: Engine>(
    alloc: Global,
    engine: &mut E,
    dictionary: &Dictionary,
    table: &Table,
    params: &Params,
) -> Result<PlainRun, Fail>
    requires begun { (E.meaning engine.old).begun ≡ 0 }
    requires signs { SignsAtMost (E.meaning engine.old).signs dictionary.now }
{
    let mut levels = Vec::with_capacity(alloc, params.count())?;
    let mut passes = Vec::new(alloc);
    let start = params.start();
    'levels: for number in start..params.finish() + 1 {
        let level = params.level(usize::from(number - start));
        let chosen = run_passes(engine, dictionary, table, level, number, &mut passes)?;
        engine.end_level()?;
        levels.push(LevelRecord {
            level: number,
            chosen,
            after: totals(engine, dictionary, table),
            layout: engine.layout(),
        })?;
    }
    let totals = totals(engine, dictionary, table);
    Ok(PlainRun {
        passes,
        levels,
        totals,
    })
}
