//! Scripts played as the console does, and transcripts shown.

use crate::fault::Fault;
use crate::kept::Kept;
use crate::tally::Tally;
use cip_capture::CaptureView;
use cip_chart::{ChartView, Cut};
use cip_console::{ConsoleFault, Script, run};
use cip_indexed::{NewModule, new_modules};
use cip_module::Module;
use cip_read::Reader;
use cip_topology::{Topology, load};
use cip_view::{JsonView, Pieces, TextView, View, feed, finish};
use std::alloc::Global;

// The bytes of a transcript that are shown at a time.
const PIECE: usize = 65_536;

// New modules of a topology, each as a box of any module: a function can't hand such boxes out.
macro_rules! boxes {
    ($alloc:ident, $topology:expr) => {{
        let mut modules: Vec<Box<dyn Module + Send>> = Vec::new($alloc);
        for new in new_modules($alloc, $topology.configs())? {
            let pushed = match new {
                NewModule::Plain(module_) => modules.push(module_),
                NewModule::Adapter(module_) => modules.push(module_),
                NewModule::Indexed(module_) => modules.push(module_),
            };
            if pushed.is_err() {
                return Err(Fault::NoMemory);
            }
        }
        modules
    }};
}

/// The topology of a text. Topology where it breaks a rule.
pub fn loaded(alloc: Global, text: &[u8]) -> Result<Topology, Fault> {
    match std::str::from_utf8(text) {
        Ok(text) => Ok(load(alloc, text)?),
        Err(_) => Err(Fault::Topology),
    }
}

/// Plays a script over new modules of a topology, and says how that ended. The transcript is kept.
pub fn play(
    alloc: Global,
    topology: Topology,
    script: &[u8],
    kept: &mut Kept,
) -> Result<Result<(), ConsoleFault>, Fault> {
    let modules = boxes!(alloc, topology);
    let mut reader = Script { rest: script };
    Ok(run(alloc, &mut reader, kept, topology, modules))
}

// Shows a transcript, piece by piece.
fn show<V: View>(
    alloc: Global,
    topology: &Topology,
    transcript: &[u8],
    view: &mut V,
    shown: &mut Kept,
) -> Result<(), Fault> {
    let mut reader = Reader::new(topology);
    let mut pieces = Pieces::new(alloc);
    for piece in transcript.chunks(PIECE) {
        feed(alloc, &mut reader, &mut pieces, view, piece)?;
        shown.put(view.written())?;
        view.clear();
    }
    finish(alloc, &reader, &pieces, view)?;
    shown.put(view.written())
}

// What was shown counts, and the next view begins.
fn count(shown: &mut Kept, tally: &mut Tally) {
    tally.result(shown.as_slice());
    shown.clear();
}

fn show_chart(
    alloc: Global,
    topology: &Topology,
    transcript: &[u8],
    is_page: bool,
    shown: &mut Kept,
) -> Result<(), Fault> {
    let mut view = ChartView::new(alloc, topology, Cut::whole(alloc), is_page)?;
    show(alloc, topology, transcript, &mut view, shown)
}

fn show_capture(
    alloc: Global,
    topology: &Topology,
    transcript: &[u8],
    shown: &mut Kept,
) -> Result<(), Fault> {
    let mut view = CaptureView::new(alloc, topology)?;
    show(alloc, topology, transcript, &mut view, shown)
}

/// Shows a transcript as text, as JSON, as a chart and as a capture. Transcript where it is none.
pub fn show_all(
    alloc: Global,
    topology: &Topology,
    transcript: &[u8],
    is_page: bool,
    shown: &mut Kept,
    tally: &mut Tally,
) -> Result<(), Fault> {
    let mut text = TextView::new(alloc, topology);
    show(alloc, topology, transcript, &mut text, shown)?;
    count(shown, tally);
    let mut json = JsonView::new(alloc, topology);
    show(alloc, topology, transcript, &mut json, shown)?;
    count(shown, tally);
    show_chart(alloc, topology, transcript, is_page, shown)?;
    count(shown, tally);
    show_capture(alloc, topology, transcript, shown)?;
    count(shown, tally);
    Ok(())
}
