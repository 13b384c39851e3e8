//! Splitting a charge in whole cents over weights in kWh.
#![tactic(auto)]

mod charge;
mod either;
mod fault;
mod figures;
mod largest;
mod rule;
mod running;
#[cfg(test)]
mod tests;
mod weights;
mod write_shares;

pub use either::Either;
pub use fault::Fault;
pub use figures::worked_figures;
pub use largest::Largest;
pub use rule::{Apportion, split_by};
pub use running::Running;
pub use weights::{accept, weigh};
