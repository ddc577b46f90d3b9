//! What no table of rows can say. Runs of the driver are made beside a run that skips no pass, and
//! over both engines. The values that both engines give are compared, and the windows that a pass
//! counts are tried. A call of the program is made over files that never fail, and calls are made
//! over a disk that stops or fails at each of its calls in turn. The statuses of the program are
//! tried too. All other calls are rows of patgen_rows.
//!
//! What files and sinks do whose calls fail, and the calls of the crates below the engines, are
//! tried in pg_calls.
#![tactic(auto)]

#[cfg(test)]
mod counts;
#[cfg(test)]
mod engines;
#[cfg(test)]
mod plain;
#[cfg(test)]
mod quiet;
#[cfg(test)]
mod runs;
#[cfg(test)]
mod statuses;
#[cfg(test)]
mod stopped;
#[cfg(test)]
mod unskipped;
#[cfg(test)]
mod values;
