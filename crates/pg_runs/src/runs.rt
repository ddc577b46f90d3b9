//! Runs on the words of `sample`, over either engine.
ghost use Rattle.std.specs.Prelude.{◌+◌, IfOk};
ghost use Rattle.pg_translate.specs.Alphabets.{letters_of};
ghost use Rattle.pg_dict.specs.Inside.SoundWords.{SignsAtMost};

use pg_dict::Dictionary;
use pg_driver::{Run, generate};
use pg_packed::PackedEngine;
use pg_patterns::PatternSet;
use pg_plain::PlainEngine;
use pg_top::sample_text;
use pg_translate::Table;
use pg_types::{Params, read_params};
use pg_words::limits::COUNT_MAX;
use std::alloc::{AllocError, Global};
use std::test::Fail;

/// What a run reads.
#[derive(Drop)]
pub(crate) struct Inputs {
    pub table: Table,
    pub dictionary: Dictionary,
    pub params: Params,
}

/// So many words that `sample` draws from the seed 7, under a table.
fn drawn_words(alloc: Global, table: &Table, count: u32) -> Result<Dictionary, Fail>
    ensures { IfOk result (SignsAtMost (letters_of table.now + 1)) }
{
    if count > COUNT_MAX {
        return Err(Fail::new("at most as many words as sample makes"));
    }
    let words = sample_text(alloc, 7, count)?;
    Ok(Dictionary::read(alloc, table, words.as_slice())?)
}

/// The default letters, so many words that `sample` draws from the seed 7, and parameters.
pub(crate) fn read_inputs(alloc: Global, count: u32, parameters: &[u8]) -> Result<Inputs, Fail>
    ensures { IfOk result (λ inputs. SignsAtMost (letters_of inputs.table + 1) inputs.dictionary) }
{
    let params = read_params(alloc, parameters)?;
    let table = Table::default_letters(alloc)?;
    let dictionary = drawn_words(alloc, &table, count)?;
    Ok(Inputs {
        table,
        dictionary,
        params,
    })
}

/// The run over the plain engine, from no pattern.
pub(crate) fn plain_run(alloc: Global, inputs: &Inputs) -> Result<Run, AllocError>
    requires { SignsAtMost (letters_of inputs.now.table + 1) inputs.now.dictionary }
{
    let (table, dictionary, params) = (&inputs.table, &inputs.dictionary, &inputs.params);
    let signs = table.letters() + 1;
    let mut engine = PlainEngine::new(alloc, signs, &PatternSet::empty(alloc))?;
    generate(alloc, &mut engine, dictionary, table, params)
}

/// The same over the packed engine.
pub(crate) fn packed_run(alloc: Global, inputs: &Inputs) -> Result<Run, AllocError>
    requires { SignsAtMost (letters_of inputs.now.table + 1) inputs.now.dictionary }
{
    let (table, dictionary, params) = (&inputs.table, &inputs.dictionary, &inputs.params);
    let signs = table.letters() + 1;
    let mut engine = PackedEngine::new(alloc, signs, &PatternSet::empty(alloc))?;
    generate(alloc, &mut engine, dictionary, table, params)
}
