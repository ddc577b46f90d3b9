//! The steps that all commands share: they read a file as an input, write files, put lines and end
//! with an answer. Each says which part of the plan of a call it did. They know no engine. So they
//! are proved early, and each must-fail edit of pg_top begins with a smaller crate.
#![tactic(auto)]

pub mod ends;
pub mod inputs;
pub mod reading;
pub mod refused;

pub use ends::{BuiltTexts, OutputFile, answer, end, push_file, put_stop};
pub use inputs::{Given, Input, Stop};
pub use reading::{
    read_dictionary, read_front, read_parameters, read_patterns, read_table, refuse,
};
pub use refused::push_label;
