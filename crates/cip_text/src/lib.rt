//! Texts in the making: words, numbers, pairs of digits, JSON strings and texts in XML, each put
//! once into its place; and the lines of a transcript in the making.
#![tactic(auto)]

mod draft;
mod escape;
pub mod line;
mod pairs;
mod quoted;

pub use draft::Draft;
pub use pairs::{PART, fill_pairs, pairs_in};
