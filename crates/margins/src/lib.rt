//! Margin payments of one hour: what suppliers above the pool price and loads below it are paid.
#![tactic(auto)]

mod energy;
mod payment;
mod side;

pub use energy::whole_offer;
pub use payment::{BlockEnergy, margin_payment, side_payment};
pub use side::{Bids, Offers, Side, blocks_in_order, in_order};

#[cfg(test)]
mod tests;
