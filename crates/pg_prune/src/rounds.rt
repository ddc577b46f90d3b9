//! The rounds through the entries, each of which takes out what no position needs.
ghost use Rattle.std.specs.Prelude.{◌≡◌, ◌<◌, ◌≤◌, not, [], ◌∷◌, List, length, map, if◌then◌else◌, replicate, IfOk, None, MatchOption};
ghost use Rattle.pg_types.specs.declared.limits.TheConstants.{LEVEL_MAX};
ghost use Rattle.pg_prune.specs.Inside.positions.PositionInReach.{PositionInReach, need_at};
ghost use Rattle.pg_prune.specs.Prunes.{needs as needs_of};
ghost use Rattle.pg_prune.specs.Inside.rounds.EqualBreaks.{break_alike};
ghost use Rattle.pg_prune.specs.Inside.Findings.{first_difference};
ghost use Rattle.pg_prune.specs.Inside.positions.EntryPositions.{positions_of_entries};
ghost use Rattle.pg_prune.specs.Inside.rounds.Picks.{picked_entries, ListsPositions, IsKeptSoFar, IsOneRound, HasAllEntries};
ghost use Rattle.std.specs.List.{range_with_len};
ghost use Rattle.pg_prune.specs.Inside.rounds.AllRounds.{AreAllRounds};
ghost use Rattle.pg_prune.specs.Inside.rounds.Turns.{Turn, with_entry, without_entry, IsHeld, IsAwaited, IsTallied, IsFound};

pub mod holders;
pub mod kept_patterns;

use crate::pruned::Need;
use crate::rounds::holders::Holders;
use pg_patterns::PatternSet;
use std::alloc::{AllocError, Global};

/// An observer of the rounds. Nothing is promised of its calls, and nothing is asked of it. It is a
/// trait of its own, so that this crate stands on no observer of a call.
pub trait RoundObserver {
    /// A round begins, counted from 1.
    fn begins(&self, round: u64);
}

/// An observer that does nothing.
#[derive(Clone, Copy, Debug, Default)]
pub struct NoObserver;

impl RoundObserver for NoObserver {
    fn begins(&self, _round: u64) {}
}

/// Adds an entry with this value at its positions.
fn add(holders: &mut [Holders], positions: &[usize], value: u8)
    requires { (turn : Turn) × IsAwaited turn holders.old positions.now value }
    ensures { (turn : Turn) → IsAwaited turn holders.old positions.now value
        → IsTallied turn.positions (with_entry turn) holders.new }
{
    'positions: for position in positions {
        holders[*position].add(value);
    }
}

/// Takes an entry with this value off its positions.
fn take_off(holders: &mut [Holders], positions: &[usize], value: u8)
    requires { (turn : Turn) × IsHeld turn holders.old positions.now value }
    ensures { (turn : Turn) → IsHeld turn holders.old positions.now value
        → IsTallied turn.positions (without_entry turn) holders.new }
{
    'positions: for position in positions {
        holders[*position].take_off(value);
    }
}

/// The first of an entry's positions that needs the entry: the value there would not stay odd, or
/// even, without it. None where the entry can go.
fn first_need(holders: &[Holders], positions: &[usize], value: u8) -> Option<usize>
    requires { (turn : Turn) × IsHeld turn holders.now positions.now value }
    ensures { (turn : Turn) → IsHeld turn holders.now positions.now value
        → (let found = first_difference turn.positions (with_entry turn) (without_entry turn) in
        MatchOption result (found ≡ None) (IsFound turn.positions found)) }
{
    'positions: for position in positions {
        if !holders[*position].stays_alike(value) {
            return Some(*position);
        }
    }
    None
}

/// No entry at any of `count` positions.
fn no_holders(alloc: Global, count: usize) -> Result<Vec<Holders>, AllocError>
    ensures { IfOk result (λ holders. holders.items ≡ replicate count (replicate LEVEL_MAX 0)) }
{
    let mut holders = Vec::new(alloc);
    'positions: for _ in 0..count {
        holders.push(Holders::none())?;
    }
    Ok(holders)
}

/// How many entries give each value to each of `count` positions, where all entries stay.
pub(crate) fn all_holders(
    alloc: Global,
    patterns: &PatternSet,
    standing: &[Vec<usize>],
    count: usize,
) -> Result<Vec<Holders>, AllocError>
    requires { (positions : List PositionInReach)
        × ListsPositions positions patterns.now (map (λ l. l.items) standing.now) count }
    ensures { (positions : List PositionInReach)
        → ListsPositions positions patterns.now (map (λ l. l.items) standing.now) count
        → IfOk result (λ holders. IsTallied positions patterns.now holders.items) }
{
    let mut holders = no_holders(alloc, count)?;
    'entries: for i in 0..patterns.len() {
        let value = patterns.entry(i).value;
        add(holders.as_mut_slice(), standing[i].as_slice(), value);
    }
    Ok(holders)
}

/// Takes an entry with this value off its positions, where none of them needs it. The answer says
/// whether one does.
fn keep_or_take_off(holders: &mut [Holders], positions: &[usize], value: u8) -> bool
    requires { (turn : Turn) × IsHeld turn holders.old positions.now value }
    ensures answer { (turn : Turn) → IsHeld turn holders.old positions.now value
        → result ≡ not (break_alike turn.positions (with_entry turn) (without_entry turn)) }
    ensures holders { (turn : Turn) → IsHeld turn holders.old positions.now value
        → IsTallied turn.positions
        (if result then with_entry turn else without_entry turn) holders.new }
{
    let is_needed = first_need(holders, positions, value).is_some();
    if !is_needed {
        take_off(holders, positions, value);
    }
    is_needed
}

/// Makes a round through the entries with the numbers `kept`. Gives the numbers of those that stay.
pub(crate) fn round(
    alloc: Global,
    patterns: &PatternSet,
    standing: &[Vec<usize>],
    holders: &mut [Holders],
    kept: &[usize],
) -> Result<Vec<usize>, AllocError>
    requires { (positions : List PositionInReach)
        × IsKeptSoFar positions patterns.now
        (map (λ l. l.items) standing.now) holders.old kept.now }
    ensures { (positions : List PositionInReach)
        → IsKeptSoFar positions patterns.now
        (map (λ l. l.items) standing.now) holders.old kept.now
        → IfOk result (λ stay.
        IsOneRound positions patterns.now
        (map (λ l. l.items) standing.now) holders.new kept.now stay.items) }
{
    let mut stay = Vec::new(alloc);
    'entries: for i in kept {
        let value = patterns.entry(*i).value;
        if keep_or_take_off(holders, standing[*i].as_slice(), value) {
            stay.push(*i)?;
        }
    }
    Ok(stay)
}

/// The entries that rounds leave, by their numbers, and how many rounds there were.
#[derive(Drop)]
pub(crate) struct KeptEntries {
    pub kept: Vec<usize>,
    pub count: u64,
}

/// All numbers below `count`.
fn numbers(alloc: Global, count: usize) -> Result<Vec<usize>, AllocError>
    ensures { IfOk result (λ numbers. numbers.items ≡ range_with_len 0 count) }
{
    let mut numbers = Vec::new(alloc);
    'numbers: for i in 0..count {
        numbers.push(i)?;
    }
    Ok(numbers)
}

/// Makes rounds until one takes out nothing. The observer is told of each.
pub(crate) fn all_rounds<W: RoundObserver>(
    alloc: Global,
    patterns: &PatternSet,
    standing: &[Vec<usize>],
    holders: &mut [Holders],
    watch: &W,
) -> Result<KeptEntries, AllocError>
    requires { (positions : List PositionInReach)
        × HasAllEntries positions patterns.now (map (λ l. l.items) standing.now) holders.old }
    ensures { (positions : List PositionInReach)
        → HasAllEntries positions patterns.now (map (λ l. l.items) standing.now) holders.old
        → IfOk result (AreAllRounds positions patterns.now
        (map (λ l. l.items) standing.now) holders.new) }
{
    let mut kept = numbers(alloc, patterns.len())?;
    let mut count = 0;
    'rounds: loop {
        count += 1;
        watch.begins(count);
        let stay = round(alloc, patterns, standing, holders, kept.as_slice())?;
        if stay.len() == kept.len() {
            return Ok(KeptEntries { kept, count });
        }
        kept = stay;
    }
}

/// The needs of the entries with the numbers `kept`.
pub(crate) fn needs(
    alloc: Global,
    patterns: &PatternSet,
    standing: &[Vec<usize>],
    positions: &[Need],
    holders: &[Holders],
    kept: &[usize],
) -> Result<Vec<Need>, AllocError>
    requires { (all : List PositionInReach) × (positions.now ≡ map need_at all)
        × IsKeptSoFar all patterns.now (map (λ l. l.items) standing.now) holders.now kept.now }
    ensures { (all : List PositionInReach) → (positions.now ≡ map need_at all)
        → IsKeptSoFar all patterns.now (map (λ l. l.items) standing.now) holders.now kept.now
        → IfOk result (λ needs. needs.items ≡ needs_of all (picked_entries patterns.now kept.now)) }
{
    let mut needs = Vec::new(alloc);
    'entries: for i in kept {
        let value = patterns.entry(*i).value;
        if let Some(position) = first_need(holders, standing[*i].as_slice(), value) {
            needs.push(positions[position])?;
        }
    }
    Ok(needs)
}
