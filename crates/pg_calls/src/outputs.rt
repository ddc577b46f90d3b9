//! What the calls give on lists that share their ends.
use pg_outputs::Outputs;
use std::process::Abort;
use std::test::Fail;

/// Adds a record before a list that is there.
fn cons(outputs: &mut Outputs, value: u8, dot: u8, next: u64) -> Result<u64, Fail> {
    if next > outputs.len() {
        return Err(Fail::new("the list is there"));
    }
    Ok(outputs.cons(value, dot, next)?)
}

/// Adds two records, and the first of them once more. Gives the heads.
fn cons_all(outputs: &mut Outputs) -> Result<[u64; 3], Fail> {
    let first = cons(outputs, 1, 2, 0)?;
    let second = cons(outputs, 2, 0, 1)?;
    let again = cons(outputs, 1, 2, 0)?;
    Ok([first, second, again])
}

/// Compares what is kept with two records, the second of which leads to the first.
fn compare(rt: &impl Abort, outputs: &Outputs) -> Result<(), Fail> {
    if outputs.len() != 2 {
        return Err(Fail::new("two records"));
    }
    assert_eq!(rt;
        (outputs.first(2), outputs.first(0)),
        (Some((2, 0, 1)), None)
    );
    Ok(())
}

/// Adds the records and compares the heads and what is kept.
fn add_and_compare(rt: &impl Abort, outputs: &mut Outputs) -> Result<(), Fail> {
    assert_eq!(rt; cons_all(outputs)?, [1, 2, 1]);
    compare(rt, outputs)
}

#[test]
fn one_head_for_equal_records(rt: HostRuntime) -> Result<(), Fail> {
    add_and_compare(&rt, &mut Outputs::new(rt.alloc()))
}
