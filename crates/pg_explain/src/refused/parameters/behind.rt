//! How many more items of a parameters file would be refused.

use crate::refused::more::MORE_MAX;
use pg_types::{Due, Parameter, Unmet, is_answer, next_item, read_number};

/// The number that an item is, where it may stand where this is due.
fn number_in(due: &Due, item: &[u8]) -> Option<u32> {
    let number = read_number(item)?;
    if !due.is_end() && due.least <= number && number <= due.greatest {
        Some(number)
    } else {
        None
    }
}

/// What is due behind an item. A refused one counts as the least that may stand there. Where the
/// levels are not known, there are as many as may be.
fn due_behind(due: &Due, number: Option<u32>, is_known: bool) -> Due {
    match (due.parameter, number) {
        (Parameter::LastLevel, _) if !is_known => due.behind(due.greatest),
        (_, Some(number)) => due.behind(number),
        (_, None) => due.behind(due.least),
    }
}

/// How many items behind the refused one would be refused too, each judged by its place. They are
/// counted up to a hundred.
pub(crate) fn refused_behind(unmet: &Unmet<'_>, is_known: bool) -> usize {
    let mut rest = unmet.rest;
    let mut due = unmet.due;
    let mut may_answer = !due.is_end();
    let mut more = 0_usize;
    for index in 0..rest.len() {
        let Some((item, after)) = next_item(rest) else {
            break;
        };
        let number = number_in(&due, item);
        let ends = due.is_end() || !is_known && due.parameter == Parameter::LeastLength;
        let is_due = number.is_some() || may_answer && ends && is_answer(item);
        if 0 < index && !is_due {
            more = more.saturating_add(1);
        }
        may_answer = may_answer && !due.is_end();
        due = due_behind(&due, number, is_known);
        rest = after;
    }
    more.min(MORE_MAX)
}
