//! The hour file settled: a statement or a fault, printed into the caller's text.
#![tactic(auto)]

mod call;
mod cursor;
mod entry;
mod fault;
mod hour_file;
mod print;
mod reading;
mod run;
mod settlement;
mod statement;
mod trading;

pub use fault::{Fault, LineFault};
pub use print::Print;
pub use settlement::{find_fault, settle};
