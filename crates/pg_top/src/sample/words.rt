//! The dictionary of `sample`: words made from a number.
ghost use Rattle.std.specs.Prelude.{◌≡◌, ◌≤◌, ◌++◌, IfOk, OnOk};
ghost use Rattle.pg_words.specs.declared.limits.TheConstants.{COUNT_MAX};
ghost use Rattle.pg_top.specs.Sampling.{sample_text as text_of};
ghost use Rattle.pg_top.specs.Inside.MadeWords.{next_state, ending, syllable as syllable_of, further_syllables, word as word_of_state};

use pg_draws::Draws;
use std::alloc::{AllocError, Global};

/// The consonants with which a syllable begins.
const CONSONANTS: &[u8] = b"bdfgklmnprst";

/// The vowels of a syllable.
const VOWELS: &[u8] = b"aeiou";

/// The consonants with which a syllable may end.
const CLOSINGS: &[u8] = b"nrs";

/// Appends the end of a syllable, a consonant or nothing.
#[tactic(auto, unfolding(crate::specs::Inside::MadeWords::ending))]
fn push_ending(text: &mut Vec<u8>, draws: &mut Draws) -> Result<(), AllocError>
    ensures text { OnOk result
        (text.new.items ≡ text.old.items ++ (ending (next_state draws.old)).text) }
    ensures state { OnOk result (draws.new ≡ (ending (next_state draws.old)).state) }
{
    if draws.next_below(4) == 0 {
        text.push(CLOSINGS[draws.next_below(3)])?;
    }
    Ok(())
}

/// Appends a syllable.
#[tactic(auto, unfolding(crate::specs::Inside::MadeWords::syllable))]
fn push_syllable(text: &mut Vec<u8>, draws: &mut Draws) -> Result<(), AllocError>
    ensures text { OnOk result (text.new.items ≡ text.old.items ++ (syllable_of draws.old).text) }
    ensures state { OnOk result (draws.new ≡ (syllable_of draws.old).state) }
{
    text.push(CONSONANTS[draws.next_below(12)])?;
    text.push(VOWELS[draws.next_below(5)])?;
    push_ending(text, draws)
}

/// Appends further syllables, each behind a hyphen.
fn push_further(text: &mut Vec<u8>, draws: &mut Draws, count: usize) -> Result<(), AllocError>
    ensures text { OnOk result
        (text.new.items ≡ text.old.items ++ (further_syllables count draws.old).text) }
    ensures state { OnOk result (draws.new ≡ (further_syllables count draws.old).state) }
{
    'syllables: for i in 0..count {
        text.push(b'-')?;
        push_syllable(text, draws)?;
    }
    Ok(())
}

/// Appends a word.
#[tactic(auto, unfolding(crate::specs::Inside::MadeWords::word))]
fn push_word(text: &mut Vec<u8>, draws: &mut Draws) -> Result<(), AllocError>
    ensures text { OnOk result (text.new.items ≡ text.old.items ++ (word_of_state draws.old).text) }
    ensures state { OnOk result (draws.new ≡ (word_of_state draws.old).state) }
{
    let more = draws.next_below(3) + 1;
    push_syllable(text, draws)?;
    push_further(text, draws, more)
}

/// The dictionary of `sample`: so many words from a seed, at most as many as a call may ask for.
///
/// Each word has two to four syllables with a hyphen between two. A syllable is a consonant, a
/// vowel, and in one of four cases a final consonant. All are drawn by [`Draws`](pg_draws::Draws).
pub fn sample_text(alloc: Global, seed: u32, count: u32) -> Result<Vec<u8>, AllocError>
    requires { count ≤ COUNT_MAX }
    ensures { IfOk result (λ text. text.items ≡ text_of seed count) }
{
    let mut text = Vec::new(alloc);
    let mut draws = Draws::new(seed);
    'words: for i in 0..count {
        push_word(&mut text, &mut draws)?;
        text.push(b'\n')?;
    }
    Ok(text)
}
