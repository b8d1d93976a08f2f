//! Keeps the numbers that the items of a kind have among all items, and labels that stand for the order of things. It knows
//! numbers, and no items. It promises that an item that comes or goes moves the numbers after it, in a step for each page of
//! them, and that a label keeps its value when others come or go.
#![tactic(auto)]

mod labels;
mod leaf;
mod leaves;
mod moving;
mod number_pages;
mod numbers;
mod starts;

pub use labels::Labels;
pub use numbers::Numbers;
