//! Settling an hour file for callers in C, with the library's own contract.
#![tactic(auto)]

mod export;

pub use export::hourbill_settle;
