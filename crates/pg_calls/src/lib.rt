//! The calls of the crates below the engines, on worked rows that name them. The rows say what
//! dictionaries, patterns, cells, counts and tries give of small inputs. Cells are tried beside a
//! slow list of families. Real files and sinks are tried here too, and those whose calls end early
//! or fail, as a list says.
//!
//! It stands on the lowest crates alone, so the gate can prove it early. Tests that need an engine,
//! the driver or the program are in pg_runs, and whole calls are rows of patgen_rows.
#![tactic(auto)]

#[cfg(test)]
mod cells;
#[cfg(test)]
mod count;
#[cfg(test)]
mod dict;
#[cfg(test)]
mod families;
#[cfg(test)]
mod folders;
#[cfg(test)]
mod host;
#[cfg(test)]
mod open_files;
#[cfg(test)]
mod outcomes;
#[cfg(test)]
mod outputs;
#[cfg(test)]
mod patterns;
#[cfg(test)]
mod slow;
#[cfg(test)]
mod steps;
#[cfg(test)]
mod streams;
#[cfg(test)]
mod strings;
#[cfg(test)]
mod system;
#[cfg(test)]
mod trie;
