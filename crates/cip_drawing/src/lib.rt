//! A sequence chart drawn: its lifelines, rows, arrows and marks as SVG, or as a page of HTML.
#![tactic(auto)]

mod areas;
mod arrows;
mod draw;
mod hops;
mod labels;
mod layout;
mod line;
mod lives;
mod model;
mod page;
mod rows;
mod style;

pub use draw::put_svg;
pub use model::{Arrow, Cause, Chart, Fate, Fold, Look, Mark, Row};
pub use page::put_page;
