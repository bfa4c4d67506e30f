// What the words of the command line ask of the program.
#![tactic(auto)]

mod argument;

pub use argument::{Argument, classify};
