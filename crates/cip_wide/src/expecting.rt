//! What a line expects of the run so far.

use crate::data::{differing, expect_arrived, expect_assembly, expect_consumed, expect_repeated};
use crate::fault::{LineError, WordFault, unmet, wrong_count, wrong_word};
use crate::links::module_at;
use crate::reading::{Named, attribute_number, check_drop, check_reason, code_of, op_of};
use cip_base::{Bytes, ModuleId};
use cip_ends::Ends;
use cip_message::read_reply;
use cip_outcomes::{
    Answer, Code, DropReason, OpName, Ops, Unmet, answer_of, attribute_of, excerpt, has_expired,
    module_name, nearest, newest_frame, newest_given, order_of,
};
use cip_transcript::put_chain_of;
use cip_world::{Shown, World};
use std::alloc::Global;

fn name_of(world: &World, op: Named<'_>) -> OpName {
    OpName::of_word(world.topology(), op.word, op.at, op.number)
}

fn expect_done(
    alloc: Global,
    world: &World,
    ends: &mut Ends,
    op: Named<'_>,
    word: &str,
) -> Result<(), LineError> {
    let Some(wanted) = code_of(word) else {
        return Err(wrong_word(alloc, "expect", "STATUS", word, WordFault::NoStatus));
    };
    let kind = "done";
    let Some(reply) = ends.done(world.journal(), op.at, op.number) else {
        let op = name_of(world, op);
        return Err(unmet(alloc, Unmet::NotDone { kind, op }));
    };
    match Code::of(reply) {
        Some(found) if found == wanted => Ok(()),
        Some(found) => Err(unmet(
            alloc,
            Unmet::Done {
                op: name_of(world, op),
                found,
                wanted,
                answer: answer_of(world, op.at, op.number, found, false),
            },
        )),
        None => {
            let op = name_of(world, op);
            Err(unmet(alloc, Unmet::NoReply { kind, op }))
        }
    }
}

fn expect_refused(alloc: Global, world: &World, ops: &Ops, word: &str) -> Result<(), LineError> {
    check_reason(alloc, word)?;
    let Some(last) = newest_given(world.journal()) else {
        return Err(unmet(alloc, Unmet::NoCommand));
    };
    let Some(found) = last.refused else {
        let order = order_of(world.topology(), ops, last);
        return Err(unmet(alloc, Unmet::NotRefused(order)));
    };
    let mut text = String::new(alloc);
    write!(text, "{found:?}")?;
    if text.as_str() == word {
        return Ok(());
    }
    Err(unmet(
        alloc,
        Unmet::Refused {
            order: order_of(world.topology(), ops, last),
            found,
            wanted: excerpt(word),
        },
    ))
}

// The bytes of an attribute of the reply to an op.
fn expect_attribute(
    alloc: Global,
    world: &World,
    ends: &mut Ends,
    op: Named<'_>,
    attribute: &str,
    word: &str,
) -> Result<(), LineError> {
    let number = attribute_number(alloc, attribute)?;
    let kind = "attribute";
    let Some(reply) = ends.done(world.journal(), op.at, op.number) else {
        let op = name_of(world, op);
        return Err(unmet(alloc, Unmet::NotDone { kind, op }));
    };
    expect_part(alloc, world, op, reply, number, word)
}

// The same of a reply that came.
fn expect_part(
    alloc: Global,
    world: &World,
    op: Named<'_>,
    reply: &Bytes,
    number: u16,
    word: &str,
) -> Result<(), LineError> {
    let name = name_of(world, op);
    let Ok(view) = read_reply(reply.as_slice()) else {
        return Err(unmet(
            alloc,
            Unmet::NoReply {
                kind: "attribute",
                op: name,
            },
        ));
    };
    if let Some(found) = failure_of(reply) {
        return Err(unmet(
            alloc,
            Unmet::Failed {
                op: name,
                found,
                answer: answer_of(world, op.at, op.number, found, false),
            },
        ));
    }
    let Some(part) = attribute_of(world.journal(), op.at, op.number, view, number) else {
        return Err(unmet(alloc, Unmet::NoAttribute { op: name, number }));
    };
    match differing(alloc, part, word)? {
        Some(bytes) => Err(unmet(
            alloc,
            Unmet::Attribute {
                op: name,
                number,
                bytes,
            },
        )),
        None => Ok(()),
    }
}

// The status of a reply that tells of a failure.
fn failure_of(reply: &Bytes) -> Option<Code> {
    match Code::of(reply) {
        Some(code) if code.general != 0 => Some(code),
        _ => None,
    }
}

// Who answered an op, and with which status, where it is done.
fn told_answer(world: &World, ends: &mut Ends, op: Named<'_>) -> Answer {
    match ends.done(world.journal(), op.at, op.number) {
        Some(reply) => match Code::of(reply) {
            Some(code) => answer_of(world, op.at, op.number, code, true),
            None => Answer::Missing,
        },
        None => Answer::Missing,
    }
}

// Who refused an op, and with which status, where it failed.
fn told_failure(world: &World, ends: &mut Ends, op: Named<'_>) -> Answer {
    match ends.done(world.journal(), op.at, op.number) {
        Some(reply) => match failure_of(reply) {
            Some(code) => answer_of(world, op.at, op.number, code, true),
            None => Answer::Missing,
        },
        None => Answer::Missing,
    }
}

// The connection of an op is open, or it is not.
fn expect_open(
    alloc: Global,
    world: &World,
    ends: &mut Ends,
    op: Named<'_>,
    is_open: bool,
) -> Result<(), LineError>
    requires stand { ⟦<World as Shown>⟧.stands world.now }
{
    let found = world.row_by_op(op.at, op.number)?.is_some();
    match (found, is_open) {
        (false, true) => Err(unmet(
            alloc,
            Unmet::NotOpen {
                op: name_of(world, op),
                answer: told_answer(world, ends, op),
            },
        )),
        (true, false) => Err(unmet(alloc, Unmet::Open(name_of(world, op)))),
        _ => Ok(()),
    }
}

// The connection of an op expired at a module.
fn expect_expired(
    alloc: Global,
    world: &World,
    ends: &mut Ends,
    at: ModuleId,
    op: Named<'_>,
) -> Result<(), LineError> {
    let topology = world.topology();
    match has_expired(topology, world.journal(), (op.at, op.number), at) {
        Some(true) => Ok(()),
        Some(false) => Err(unmet(
            alloc,
            Unmet::NotExpired {
                op: name_of(world, op),
                module_: module_name(topology, at),
                answer: told_failure(world, ends, op),
            },
        )),
        None => Err(unmet(alloc, Unmet::NotAsked(name_of(world, op)))),
    }
}

// The last frame that came to a module was dropped for a reason.
fn expect_dropped(alloc: Global, world: &World, at: ModuleId, word: &str) -> Result<(), LineError> {
    check_drop(alloc, word)?;
    let module_ = module_name(world.topology(), at);
    let Some((frame, dropped)) = newest_frame(world.journal(), at) else {
        return Err(unmet(alloc, Unmet::NoFrame(module_)));
    };
    let mut text = String::new(alloc);
    if let Some(dropped) = dropped {
        write!(text, "{dropped:?}")?;
    }
    if text.as_str() == word {
        return Ok(());
    }
    Err(unmet(
        alloc,
        Unmet::Dropped {
            module_,
            frame,
            found: DropReason(dropped),
            wanted: excerpt(word),
        },
    ))
}

// The words, as a script has them.
fn joined(alloc: Global, words: &[&str]) -> Result<String, LineError> {
    let mut text = String::new(alloc);
    for word in words {
        if !text.is_empty() {
            text.push(' ')?;
        }
        text.push_str(word)?;
    }
    Ok(text)
}

// What `chain` writes of an op, without that word.
fn chain_of(
    alloc: Global,
    world: &World,
    names: &[Bytes],
    op: Named<'_>,
) -> Result<String, LineError>
    requires stand { ⟦<World as Shown>⟧.stands world.now }
{
    let mut bytes = Vec::new(alloc);
    put_chain_of(alloc, world, names, op.at, op.number, &mut bytes)?;
    let line = std::str::from_utf8(bytes.as_slice()).unwrap_or("").trim();
    let words = line.strip_prefix("chain ").unwrap_or(line);
    Ok(String::from_str(alloc, words)?)
}

// The words that name modules do so.
fn check_modules(alloc: Global, world: &World, words: &[&str]) -> Result<(), LineError> {
    let modules = match words {
        ["not", "open"] => return Ok(()),
        ["broken", rest @ ..] => rest,
        [modules @ .., _, _] => modules,
        _ => words,
    };
    for name in modules {
        module_at(alloc, world.topology(), "expect", name)?;
    }
    Ok(())
}

fn expect_chain(
    alloc: Global,
    world: &World,
    names: &[Bytes],
    ends: &mut Ends,
    op: Named<'_>,
    words: &[&str],
) -> Result<(), LineError>
    requires stand { ⟦<World as Shown>⟧.stands world.now }
{
    check_modules(alloc, world, words)?;
    let wanted = joined(alloc, words)?;
    let found = chain_of(alloc, world, names, op)?;
    if found.as_str() == wanted.as_str() {
        return Ok(());
    }
    Err(unmet(
        alloc,
        Unmet::Chain {
            op: name_of(world, op),
            found,
            wanted,
            answer: told_failure(world, ends, op),
        },
    ))
}

fn expect_quiet(alloc: Global, world: &World) -> Result<(), LineError> {
    let waiting = world.waiting()?;
    if waiting.is_empty() {
        return Ok(());
    }
    Err(unmet(alloc, Unmet::Waiting(waiting)))
}

static KINDS: [&str; 13] = [
    "done",
    "refused",
    "arrived",
    "consumed",
    "repeated",
    "assembly",
    "attribute",
    "open",
    "closed",
    "expired",
    "dropped",
    "chain",
    "quiet",
];

// What an expectation of this kind needs behind it.
fn needed(kind: &str) -> Option<&'static str> {
    match kind {
        "done" => Some("3, done OP STATUS"),
        "refused" => Some("2, refused REASON"),
        "arrived" => Some("3, arrived OP BYTES"),
        "consumed" => Some("4, consumed M INSTANCE BYTES"),
        "repeated" => Some("4, repeated M INSTANCE BYTES"),
        "assembly" => Some("4, assembly M INSTANCE BYTES"),
        "attribute" => Some("4, attribute OP ATTRIBUTE BYTES"),
        "open" => Some("2, open OP"),
        "closed" => Some("2, closed OP"),
        "expired" => Some("3, expired M OP"),
        "dropped" => Some("3, dropped M REASON"),
        "chain" => Some("3 or more, chain OP WORDS"),
        "quiet" => Some("1, quiet"),
        _ => None,
    }
}

// The words stand for nothing that can be expected.
fn wrong_words(alloc: Global, args: &[&str]) -> LineError {
    let Some(kind) = args.first() else {
        return wrong_count(alloc, "expect", 0, "1 or more, what is expected");
    };
    match needed(kind) {
        Some(needed) => wrong_count(alloc, "expect", args.len(), needed),
        None => match nearest(alloc, kind, &KINDS) {
            Ok(near) => wrong_word(alloc, "expect", "WHAT", kind, WordFault::NoKind(near)),
            Err(_) => LineError::NoMemory,
        },
    }
}

// What is expected of an op.
fn expect_op(
    alloc: Global,
    world: &World,
    names: &[Bytes],
    ends: &mut Ends,
    op: Named<'_>,
    args: &[&str],
) -> Result<(), LineError>
    requires stand { ⟦<World as Shown>⟧.stands world.now }
{
    match args {
        ["done", _, status] => expect_done(alloc, world, ends, op, status),
        ["arrived", _, bytes] => expect_arrived(alloc, world, op, bytes),
        ["attribute", _, number, bytes] => {
            expect_attribute(alloc, world, ends, op, number, bytes)
        }
        ["open", _] => expect_open(alloc, world, ends, op, true),
        ["closed", _] => expect_open(alloc, world, ends, op, false),
        ["chain", _, words @ ..] => expect_chain(alloc, world, names, ends, op, words),
        _ => Err(wrong_words(alloc, args)),
    }
}

// What is expected of a module.
fn expect_module(
    alloc: Global,
    world: &World,
    ops: &Ops,
    ends: &mut Ends,
    at: ModuleId,
    args: &[&str],
) -> Result<(), LineError>
    requires stand { ⟦<World as Shown>⟧.stands world.now }
{
    match args {
        ["consumed", _, instance, bytes] => expect_consumed(alloc, world, at, instance, bytes),
        ["repeated", _, instance, bytes] => expect_repeated(alloc, world, at, instance, bytes),
        ["assembly", _, instance, bytes] => expect_assembly(alloc, world, at, instance, bytes),
        ["expired", _, op] => {
            let op = op_of(alloc, world.topology(), ops, op)?;
            expect_expired(alloc, world, ends, at, op)
        }
        ["dropped", _, reason] => expect_dropped(alloc, world, at, reason),
        _ => Err(wrong_words(alloc, args)),
    }
}

/// Whether the run so far is as a line expects: `expect WHAT ..`. The names are those of the
/// modules, in their order.
pub(crate) fn expect(
    alloc: Global,
    world: &World,
    names: &[Bytes],
    ops: &Ops,
    ends: &mut Ends,
    args: &[&str],
) -> Result<(), LineError>
    requires stand { ⟦<World as Shown>⟧.stands world.now }
{
    let topology = world.topology();
    match args {
        ["refused", reason] => expect_refused(alloc, world, ops, reason),
        ["quiet"] => expect_quiet(alloc, world),
        ["done" | "arrived", op, _]
        | ["attribute", op, _, _]
        | ["open" | "closed", op]
        | ["chain", op, _, ..] => {
            let op = op_of(alloc, topology, ops, op)?;
            expect_op(alloc, world, names, ends, op, args)
        }
        ["consumed" | "repeated" | "assembly", name, _, _] | ["expired" | "dropped", name, _] => {
            let at = module_at(alloc, topology, "expect", name)?;
            expect_module(alloc, world, ops, ends, at, args)
        }
        _ => Err(wrong_words(alloc, args)),
    }
}
