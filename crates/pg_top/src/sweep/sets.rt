//! The parameter files of `sweep`, read one after the other.
ghost use Rattle.std.specs.Prelude.{◌≡◌, ◌≤◌, List, length, IfOk};
ghost use Rattle.pg_words.specs.Inside.Names.{arguments_of};
ghost use Rattle.pg_types.specs.declared.limits.TheConstants.{SETS_MAX};
ghost use Rattle.pg_types.specs.Parameters.{Parameters};
ghost use Rattle.pg_plans.specs.Plans.{Plan};
ghost use Rattle.pg_steps.specs.Inside.Steps.{Begins};
ghost use Rattle.pg_top.specs.Sweeping.{sets_from};

use pg_outside::Files;
use pg_steps::{Input, Stop, read_parameters};
use pg_types::Params;
use pg_watch::Watch;
use std::alloc::Global;

/// Reads the files of these names one after the other, up to the first refusal or fault.
pub fn read_sets<'a, F: Files, W: Watch>(
    alloc: Global,
    names: &'a [String],
    files: &mut F,
    watch: &W,
) -> Result<Vec<Params>, Stop<'a>>
    requires { length names.now ≤ SETS_MAX }
    ensures read { (next : List Parameters → Plan)
        → Begins (sets_from 1 (arguments_of names.now) next) result
        (λ sets. next sets.items) (F.shown files.old) (F.shown files.new) }
    ensures count { IfOk result (λ sets. length sets.items ≡ length names.now) }
{
    let mut sets = Vec::new(alloc);
    'sets: for i in 0..names.len() {
        let name = names[i].as_str();
        let set = read_parameters(alloc, Input::Set(i as u8 + 1), name, files, watch)?;
        match sets.push(set) {
            Ok(()) => {}
            Err(_) => return Err(Stop::Memory),
        }
    }
    Ok(sets)
}
