//! The text of a run: its entries, and the tables, trails and chains that a script asks for; and
//! the laws that what is shown of an entry is read back.
#![tactic(auto)]

mod chains;
mod fits;
mod laws;
mod names;
mod pieces;
mod show;
mod show_tables;

pub use chains::put_chain_of;
pub use fits::entry_is_read;
pub use laws::{shown_entries_are_read, shown_journals_are_read, trails_and_chains_are_no_entries};
pub use names::names_of;
pub use pieces::put;
pub use show::{name_in, put_entry, put_trail};
pub use show_tables::put_tables;
