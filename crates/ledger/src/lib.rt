//! What is posted, and the law that every list of calls keeps.
#![tactic(auto)]

mod history;
mod question;

pub use history::every_list_has_a_history;
pub use question::{posted, posted_nets};
