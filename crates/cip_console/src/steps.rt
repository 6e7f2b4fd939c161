//! A step of a script, played over a world.
ghost use Rattle.std.specs.Prelude.{◌≡◌, ◌≢◌};
ghost use Rattle.cip_chain.specs.Index.{IsIndexOf};
ghost use Rattle.cip_console.specs.Playing.{Plays};
ghost use Rattle.cip_console.specs.Transcript.{played};
ghost use Rattle.cip_transcript.specs.Show.{names_of};

use crate::playing::{
    PlayFault, deliver_frame, feed, lose, run_line, show_chain, show_tables, show_trail, tick,
};
use crate::source::Sink;
use cip_base::Bytes;
use cip_chain::TrailIndex;
use cip_script::Step;
use cip_world::{Shown, World};
use std::alloc::Global;

/// One step of a script: its text is gathered, and written once there is enough of it.
pub(crate) fn play<W: Sink>(
    alloc: Global,
    index: &mut TrailIndex,
    world: &mut World,
    names: &[Bytes],
    step: Step,
    writer: &mut W,
    text: &mut Vec<u8>,
) -> Result<(), PlayFault>
    requires stand { ⟦<World as Shown>⟧.stands world.old }
    requires names { names.now ≡ names_of world.old.ledger.plan }
    requires index { IsIndexOf index.old world.old.ledger.journal }
    ensures index { IsIndexOf index.new world.old.ledger.journal }
    ensures stand { ⟦<World as Shown>⟧.stands world.new }
    ensures plan { world.new.ledger.plan ≡ world.old.ledger.plan }
    ensures plays { Plays (played world.old.ledger.plan world.old.ledger.journal step)
        (W.contents writer.old) (W.contents writer.new) text.old.items text.new.items
        world.new.ledger.journal result }
    ensures taken { result ≢ Err PlayFault.Write → W.has_refused writer.new
        → W.has_refused writer.old }
    ensures refused { result ≡ Err PlayFault.Write → W.has_refused writer.new }
{
    match step {
        Step::Feed { module_, command } => feed(world, names, module_, command, writer, text),
        Step::Tick { module_, by } => tick(world, names, module_, by, writer, text),
        Step::Deliver { frame } => deliver_frame(world, names, frame, writer, text),
        Step::Lose { frame } => lose(world, names, frame, writer, text),
        Step::Run { limit } => run_line(world, names, limit, writer, text),
        Step::Tables { module_ } => show_tables(world, names, module_, writer, text),
        Step::Trail { module_, op } => show_trail(index, world, module_, op, writer, text),
        Step::Chain { module_, op } => show_chain(alloc, world, names, module_, op, writer, text),
    }
}
