//! A view: what is written while a transcript is read.
ghost use Rattle.std.specs.Prelude.{◌≡◌, ℕ, List, []};

use crate::pieces::Pieces;
use cip_base::NoMemory;
use cip_read::{Line, ReadFault, Reader};
use cip_words::line_end;
use std::alloc::Global;

/// How a transcript ends.
#[derive(Clone, Copy)]
pub struct Ending {
    /// How many whole lines it has.
    pub lines: usize,
    /// Whether it is cut within a line.
    pub is_cut: bool,
}

/// What takes the lines of a transcript.
pub trait View {
    // what is gathered, and was not yet written
    ghost gathered: { Self → List ℕ };

    /// A line, and what it shows.
    fn line(&mut self, alloc: Global, text: &[u8], line: Line) -> Result<(), NoMemory>;

    /// The transcript is at its end; of one that is cut, the text of its last line.
    fn end(&mut self, alloc: Global, rest: &[u8], ending: Ending) -> Result<(), NoMemory>;

    /// What is to be written.
    fn written(&self) -> &[u8]
        ensures { result.now ≡ gathered self.now };

    /// What was to be written went out.
    fn clear(&mut self)
        ensures { gathered self.new ≡ [] };
}

// The line is whole.
fn take_line<V: View>(
    alloc: Global,
    reader: &mut Reader,
    pieces: &mut Pieces,
    view: &mut V,
) -> Result<(), ReadFault> {
    let line = reader.read(alloc, pieces.line())?;
    view.line(alloc, pieces.line(), line)?;
    pieces.clear();
    Ok(())
}

/// Takes a piece of a transcript: each line that it ends is read, and shown by the view. A line
/// ends with 0A; one 0D directly before it is ignored.
pub fn feed<V: View>(
    alloc: Global,
    reader: &mut Reader,
    pieces: &mut Pieces,
    view: &mut V,
    piece: &[u8],
) -> Result<(), ReadFault> {
    let mut rest = piece;
    while let Some(end) = line_end(rest) {
        pieces.put(&rest[..end])?;
        take_line(alloc, reader, pieces, view)?;
        rest = &rest[end + 1..];
    }
    pieces.put(rest)?;
    Ok(())
}

/// The transcript is at its end.
pub fn finish<V: View>(
    alloc: Global,
    reader: &Reader,
    pieces: &Pieces,
    view: &mut V,
) -> Result<(), NoMemory> {
    let ending = Ending {
        lines: reader.lines(),
        is_cut: !pieces.held().is_empty(),
    };
    view.end(alloc, pieces.held(), ending)
}
