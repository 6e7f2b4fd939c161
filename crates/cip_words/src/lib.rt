//! The lines of a text, the words of a line, and the numbers and bytes that they show.
#![tactic(auto)]

mod laws;
mod reading;
mod text;

pub use laws::{shown_bytes_are_read, shown_numbers_are_read, shown_words_are_parted};
pub use reading::{
    ascii, ascii_words, bytes, dotted, halves, number, number_u16, number_u32, words,
};
pub use text::{first_line, line_end, lines};
