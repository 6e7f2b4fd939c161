//! From an entry back to the command or the tick that it came from.
ghost use Rattle.std.specs.Prelude.{◌≡◌, ℕ, List, reverse};
ghost use Rattle.cip_base.specs.declared.triad.Triad.{Triad};
ghost use Rattle.cip_event.specs.declared.event.Output.TheVariants.{Consumed, Arrived};
ghost use Rattle.cip_chassis.specs.Plan.{Plan, IsTopology};
ghost use Rattle.cip_world.specs.Entering.{HasOutput, ConsumedOf, ArrivedOf};
ghost use Rattle.cip_world.specs.Journals.{brought_by};
ghost use Rattle.cip_world.specs.Roots.{root_of};
ghost use Rattle.cip_world.specs.Runs.{IsRun};

use cip_world::{Entry, FrameName, Input};

// The frame that an input brought.
fn brought(input: &Input) -> Option<FrameName>
    ensures { result ≡ brought_by input.now }
{
    match input {
        Input::Frame { name, .. } => Some(*name),
        _ => None,
    }
}

// The root of an entry.
fn root_at(journal: &[Entry], k: usize) -> Option<usize>
    ensures { result ≡ root_of (reverse journal.now) k }
{
    let mut at = k;
    let mut below = journal.len();
    while at < below {
        match &journal[at] {
            Entry::Step { input, .. } => match brought(input) {
                Some(frame) => {
                    below = at;
                    at = frame.entry;
                }
                None => return Some(at),
            },
            Entry::Lost { .. } => return None,
        }
    }
    None
}

/// The number of the command or the tick that entry `k` of a journal came from, oldest entry first
/// and numbered from 0. A command or a tick is its own; a frame that arrived has the root of the
/// entry before that sent it. None for a loss, and where the journal has no entry `k`.
///
/// In a run of a topology the root of a datum that an end took entered it, unchanged and at most
/// once, on an op whose open leads to that end; and the root of one that arrived at an op produced
/// it, unchanged and at most once, where the op's open leads.
pub fn root(journal: &[Entry], k: usize) -> Option<usize>
    ensures root { result ≡ root_of (reverse journal.now) k }
    ensures consumed { (t : Plan) → IsTopology t → IsRun t (reverse journal.now) → (e : ℕ)
        (triad : Triad) (instance : ℕ) (bytes : List ℕ)
        → HasOutput (reverse journal.now) k e (Consumed triad instance bytes)
        → ConsumedOf t (reverse journal.now) k e triad instance bytes }
    ensures arrived { (t : Plan) → IsTopology t → IsRun t (reverse journal.now) → (m op : ℕ)
        (bytes : List ℕ) → HasOutput (reverse journal.now) k m (Arrived op bytes)
        → ArrivedOf t (reverse journal.now) k m op bytes }
{
    root_at(journal, k)
}
