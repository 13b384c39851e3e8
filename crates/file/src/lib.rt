//! The hour file, read strictly, and the print of a statement or a fault.
#![tactic(auto)]

mod body;
mod broken;
mod field;
mod figure;
mod item;
mod key;
mod line;
mod literal;
mod number;
mod offer;
mod position;
mod print;
mod row;
mod rule;
mod size;
mod statement;
#[cfg(test)]
mod tests;

pub use body::Read;
pub use broken::BrokenForm;
pub use item::{Item, ItemWith, RuleName};
pub use key::Key;
pub use line::read_line;
pub use size::{SIZE_LIMIT, is_oversized};
pub use statement::{PrintLine, TextTooShort, print_lines};
