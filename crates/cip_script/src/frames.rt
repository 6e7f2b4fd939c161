//! The names of frames, to be shown.

use cip_event::FrameName;
use std::fmt;

// The most frames that are listed.
const MOST: usize = 20;

/// The names of frames with commas between them: of many the first 20, and how many more there are;
/// `none` where there is none.
#[derive(Clone, Copy)]
pub struct Frames<'a>(pub &'a [FrameName]);

impl fmt::Display for Frames<'_> {
    fn fmt<W: fmt::Write>(&self, f: &mut fmt::Formatter<W>) -> fmt::Result {
        if self.0.is_empty() {
            return f.write_str("none");
        }
        for (i, frame) in self.0.iter().take(MOST).enumerate() {
            let between = if i == 0 { "" } else { ", " };
            write!(f, "{between}{}.{}", frame.entry, frame.output)?;
        }
        if self.0.len() > MOST {
            write!(f, " and {} more", self.0.len() - MOST)?;
        }
        Ok(())
    }
}
