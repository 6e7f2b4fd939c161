//! A call that is guarded, so that memory can be refused to it alone.
use crate::answers::{Answer, put_answer};
use crate::calls::{Call, ask, call_of};
use crate::fault::Fault;
use crate::noted::noted;
use crate::out::{Guard, Out};
use cip_base::Bytes;
use cip_world::{Shown, World};

// Whether two worlds show the same.
fn are_same(out: &Out, names: &[Bytes], world: &World, twin: &World) -> Result<bool, Fault>
    requires stand { ⟦<World as Shown>⟧.stands world.now }
    requires twin_stand { ⟦<World as Shown>⟧.stands twin.now }
{
    let alloc = out.alloc();
    let shown = noted(alloc, names, world)?;
    let wanted = noted(alloc, names, twin)?;
    Ok(shown == wanted)
}

// A call between the marks.
fn marked(out: &mut Out, names: &[Bytes], world: &mut World, line: &str) -> Result<Answer, Fault>
    requires stand { ⟦<World as Shown>⟧.stands world.old }
    ensures stand { ⟦<World as Shown>⟧.stands world.new }
{
    let alloc = out.alloc();
    let call = call_of(alloc, names, line)?;
    out.begin(Guard::Marks)?;
    let answer = ask(alloc, world, call);
    out.end(Guard::Marks)?;
    Ok(answer)
}

// The twin comes as far as the world came: a run's frames stay delivered where memory is refused.
fn follow(twin: &mut World, call: &Call, arrived: usize) -> Result<(), Fault>
    requires stand { ⟦<World as Shown>⟧.stands twin.old }
    ensures stand { ⟦<World as Shown>⟧.stands twin.new }
{
    if !call.is_run() {
        return Ok(());
    }
    twin.run(arrived)?;
    Ok(())
}

// What a call is answered that is made again, since memory was refused.
fn again(
    out: &mut Out,
    names: &[Bytes],
    world: &mut World,
    twin: &mut World,
    line: &str,
    arrived: usize,
) -> Result<Answer, Fault>
    requires stand { ⟦<World as Shown>⟧.stands world.old }
    requires twin_stand { ⟦<World as Shown>⟧.stands twin.old }
    ensures stand { ⟦<World as Shown>⟧.stands world.new }
    ensures twin_stand { ⟦<World as Shown>⟧.stands twin.new }
{
    let alloc = out.alloc();
    let call = call_of(alloc, names, line)?;
    follow(twin, &call, arrived)?;
    let is_same = are_same(out, names, world, twin)?;
    out.put(if is_same {
        "no memory\nsame\n"
    } else {
        "no memory\ndiffers\n"
    })?;
    Ok(ask(alloc, world, call.less(arrived)))
}

// What a call is answered in the end, and how many frames arrived before memory was refused.
#[derive(Drop)]
struct MadeCall {
    answer: Answer,
    arrived: usize,
}

fn made(
    out: &mut Out,
    names: &[Bytes],
    world: &mut World,
    twin: &mut World,
    line: &str,
) -> Result<MadeCall, Fault>
    requires stand { ⟦<World as Shown>⟧.stands world.old }
    requires twin_stand { ⟦<World as Shown>⟧.stands twin.old }
    ensures stand { ⟦<World as Shown>⟧.stands world.new }
    ensures twin_stand { ⟦<World as Shown>⟧.stands twin.new }
{
    let before = world.journal().len();
    let answer = marked(out, names, world, line)?;
    if !answer.is_no_memory() {
        return Ok(MadeCall { answer, arrived: 0 });
    }
    let arrived = world.journal().len().saturating_sub(before);
    let answer = again(out, names, world, twin, line, arrived)?;
    Ok(MadeCall { answer, arrived })
}

/// Makes a call of a world between the marks `>` and `<`, and then of its twin, which is never
/// refused memory. Where memory is refused, the lines tell so, and whether the world shows the
/// `same` as the twin; then the call is made again, without marks. A line `apart` tells that the
/// two answer or stand otherwise in the end.
pub fn guarded(
    out: &mut Out,
    names: &[Bytes],
    world: &mut World,
    twin: &mut World,
    line: &str,
) -> Result<(), Fault>
    requires stand { ⟦<World as Shown>⟧.stands world.old }
    requires twin_stand { ⟦<World as Shown>⟧.stands twin.old }
    ensures stand { ⟦<World as Shown>⟧.stands world.new }
    ensures twin_stand { ⟦<World as Shown>⟧.stands twin.new }
{
    let alloc = out.alloc();
    let made = made(out, names, world, twin, line)?;
    let mut told_here = Vec::new(alloc);
    put_answer(alloc, &mut told_here, names, world, &made.answer)?;
    out.put_bytes(told_here.as_slice())?;
    let answer = ask(alloc, twin, call_of(alloc, names, line)?.less(made.arrived));
    let mut told_there = Vec::new(alloc);
    put_answer(alloc, &mut told_there, names, twin, &answer)?;
    if told_here != told_there || !are_same(out, names, world, twin)? {
        out.put("apart\n")?;
    }
    Ok(())
}
