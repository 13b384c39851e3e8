//! Prices of one hour: what each asset offered and was told to run at, and the prices that follow.
#![tactic(auto)]

mod asset;
mod average;
mod block;
mod kind;
mod schedule;

pub use asset::Asset;
pub use average::nearest_sixtieth;
pub use block::{Block, BlockList, marginal_price};
pub use kind::{Kind, UnknownLetter};
pub use schedule::Schedule;

#[cfg(test)]
mod tests;
