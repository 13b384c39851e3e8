//! Clients of an hour, worked cases as a theorem, and cases run over the public calls.
#![tactic(auto)]

mod client;
mod late;
mod run;
#[cfg(test)]
mod tests;
mod worked;

pub use client::settle_one_asset;
pub use late::settle_late_reading;
pub use worked::worked_cases;
