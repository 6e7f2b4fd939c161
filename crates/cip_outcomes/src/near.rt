//! The name that a word is nearest to.

use cip_base::Excerpt;
use std::alloc::{AllocError, Global};
use std::fmt;
use strsim::osa_distance;

// The most edits from a word to the nearest name that is told.
const MOST: usize = 3;

// The most bytes of a word that is near a name.
const LONGEST: usize = 32;

/// The name that was meant, perhaps, where one is near.
#[derive(Drop)]
pub struct Near(Option<Excerpt>);

impl fmt::Display for Near {
    fn fmt<W: fmt::Write>(&self, f: &mut fmt::Formatter<W>) -> fmt::Result {
        match &self.0 {
            Some(name) => write!(f, "; the nearest is `{name}`"),
            None => Ok(()),
        }
    }
}

// Edits of less than half of the word, and 3 at most. Letters that change places are one.
fn is_near(edits: usize, word: &str) -> bool {
    edits <= MOST && edits.saturating_mul(2) < word.len()
}

/// The first of the names that takes the fewest edits.
pub fn nearest(alloc: Global, word: &str, names: &[&str]) -> Result<Near, AllocError> {
    if word.len() > LONGEST {
        return Ok(Near(None));
    }
    let mut near = None;
    let mut least = MOST + 1;
    for name in names {
        let edits = osa_distance(alloc, word, name)?;
        if edits < least && is_near(edits, word) {
            least = edits;
            near = Some(Excerpt::of(name.as_bytes()));
        }
    }
    Ok(Near(near))
}
