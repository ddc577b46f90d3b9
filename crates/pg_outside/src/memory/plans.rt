//! The calls that are to fail, and the running number of the calls.
ghost use Rattle.std.specs.Prelude.{◌≡◌, ◌≤◌, ◌==◌, [], find, length, take, unwrap_or, OnOk, OnErr};
ghost use Rattle.std.specs.Option.{option_map};
ghost use Rattle.std.specs.FinMap as fin;
ghost use Rattle.pg_outside.specs.Faults.{next_count};

use std::alloc::{AllocError, Global};

/// A call that is to fail.
#[derive(Clone, Copy)]
pub(crate) struct Plan {
    /// Its number, counted from 1.
    pub call: u64,
    /// How many of the bytes that it was handed the call keeps; `None` leaves all as before.
    pub keep: Option<usize>,
}

impl Plan {
    /// The first bytes of those that the call was handed, which it keeps: none where `keep` is
    /// `None`.
    pub fn front<'a>(&self, bytes: &'a [u8]) -> &'a [u8]
        ensures kept { result.now ≡ take (unwrap_or self.now.keep 0) bytes.now }
        ensures few { length result.now ≤ length bytes.now }
    {
        let keep = match self.keep {
            Some(keep) => keep.min(bytes.len()),
            None => 0,
        };
        &bytes[..keep]
    }
}

/// The calls that are to fail, and how many calls there were.
#[derive(Drop)]
pub(crate) struct Plans {
    pub listed: Vec<Plan>,
    pub calls: u64,
}

impl Plans {
    ghost use Rattle.pg_outside.specs.Inside.calls.ListedCalls.{listed_calls, plan_entry};

    pub fn new(alloc: Global) -> Plans
        ensures listed { result.listed.items ≡ [] }
        ensures calls { result.calls ≡ 0 }
    {
        Plans {
            listed: Vec::new(alloc),
            calls: 0,
        }
    }

    /// Lets the call of this number fail. Of two plans for one call the later counts.
    pub fn list(&mut self, call: u64, keep: Option<usize>) -> Result<(), AllocError>
        ensures ok { OnOk result
            (listed_calls self.new.listed.items
            ≡ fin.insert (listed_calls self.old.listed.items) call keep) }
        ensures err { OnErr result
            (listed_calls self.new.listed.items ≡ listed_calls self.old.listed.items) }
        ensures calls { self.new.calls ≡ self.old.calls }
    {
        self.listed.insert(0, Plan { call, keep })?;
        Ok(())
    }

    /// Counts a call, and gives its plan where it is listed.
    pub fn next(&mut self) -> Option<Plan>
        ensures plan { option_map (λ plan. plan.keep) result
            ≡ fin.get (listed_calls self.old.listed.items) (next_count self.old.calls) }
        ensures listed { self.new.listed.items ≡ self.old.listed.items }
        ensures calls { self.new.calls ≡ next_count self.old.calls }
    {
        self.calls = self.calls.saturating_add(1);
        let number = self.calls;
        find_plan(&self.listed, number)
    }
}

fn find_plan(plans: &[Plan], number: u64) -> Option<Plan>
    ensures plan { result ≡ find (λ plan. plan.call == number) plans.now }
{
    plans.iter().copied().find(|plan| plan.call == number)
}
