//! Reading what a transcript shows gives it back.
ghost use Rattle.std.specs.Prelude.{◌≡◌, ℕ, ◌<◌, ◌^◌, List, Some};
ghost use Rattle.cip_chassis.specs.Plan.{Plan, IsTopology};
ghost use Rattle.cip_world.specs.declared.journal.Entry.{Entry};
ghost use Rattle.cip_transcript.specs.Show.{entry_text, names_of, trail_text, chain_text};
ghost use Rattle.cip_transcript.specs.Chained.{Chained};
ghost use Rattle.cip_transcript.specs.Back.{ShowsNone, read_text, lines_shown, entries_text};
ghost use Rattle.cip_transcript.specs.Back.{entries_shown};
ghost use Rattle.cip_transcript.specs.Fits.{FitsEntry, FitsEntries, FitsNumbers, FitsChain};

/// The lines that a transcript shows of an entry over a topology are read as that entry: its own
/// line and those of its outputs, in their order.
pub fn shown_entries_are_read()
    ensures { (t : Plan) → IsTopology t → (k : ℕ) → k < 2 ^ 64 → (entry : Entry)
        → FitsEntry t entry
        → read_text t (entry_text (names_of t) k entry) ≡ Some (lines_shown k entry) }
{}

/// And so are the lines of all entries, one behind the other.
pub fn shown_journals_are_read()
    ensures { (t : Plan) → IsTopology t → (k : ℕ) (all : List Entry) → FitsEntries t k all
        → read_text t (entries_text (names_of t) k all) ≡ Some (entries_shown k all) }
{}

/// No line of a trail or of a chain is read as a part of an entry.
pub fn trails_and_chains_are_no_entries()
    ensures trail { (t : Plan) (entries : List ℕ) → FitsNumbers entries
        → ShowsNone t (trail_text entries) }
    ensures chain { (t : Plan) → IsTopology t → (chain : Chained) → FitsChain chain
        → ShowsNone t (chain_text (names_of t) chain) }
{}
