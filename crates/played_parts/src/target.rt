//! Questions about a target: what its objects answer, and which connections end there.
use crate::texts::{Digits, Named, PairsOrCount, text};
use cip_base::{Bytes, Timing, Triad};
use cip_message::read_request;
use cip_open::{OpenFields, OpenView};
use cip_segment::view_path;
use cip_target::{AssemblyConfig, Identity, IdentityFields, Target};
use line_words::{Then, Words};
use std::alloc::Global;
use std::fmt::Write;

const ENDS: [AssemblyConfig; 4] = [
    AssemblyConfig {
        instance: 103,
        size: 3,
    },
    AssemblyConfig {
        instance: 100,
        size: 0,
    },
    AssemblyConfig {
        instance: 102,
        size: 2,
    },
    AssemblyConfig {
        instance: 101,
        size: 4,
    },
];

const OBJECTS: [AssemblyConfig; 3] = [
    AssemblyConfig {
        instance: 0x0101,
        size: 1,
    },
    AssemblyConfig {
        instance: 101,
        size: 4,
    },
    AssemblyConfig {
        instance: 100,
        size: 0,
    },
];

// An identity of this major revision and name, if that is legal.
fn identity(alloc: Global, major: u8, name: &[u8]) -> Option<Option<Identity>> {
    let name = Bytes::of(Vec::from_slice(alloc, name).ok()?);
    Some(Identity::new(IdentityFields {
        vendor: 0x0101,
        device_type: 12,
        product: 2,
        major,
        minor: 3,
        status: 0,
        serial: 0x0B0B,
        name,
    }))
}

fn fields_shown(alloc: Global, fields: &IdentityFields) -> Option<String> {
    let name = Then("name", PairsOrCount(fields.name.as_slice()));
    let serial = Then("serial", Then(fields.serial, name));
    let revision = Then("revision", Named((fields.major, fields.minor)));
    let more = Then(revision, serial);
    text(alloc, Then("vendor", Then(fields.vendor, more)))
}

/// All that a target shows: its identity, and at most four of its assemblies.
pub fn state(alloc: Global, target: &Target) -> Option<String> {
    let mut shown = fields_shown(alloc, target.identity())?;
    let mut after = None;
    for _ in 0..4 {
        let Some((instance, bytes)) = target.next_after(after) else {
            break;
        };
        write!(shown, " {}", Then(instance, PairsOrCount(bytes))).ok()?;
        after = Some(instance);
    }
    Some(shown)
}

/// `ends` or `objects`: a target of the name BR, with these assemblies.
pub fn made(words: &mut Words) -> Option<Target> {
    let alloc = words.alloc;
    let has_ends = words.word()? == "ends";
    let identity = identity(alloc, 1, b"BR")??;
    words.open();
    let made = if has_ends {
        Target::new(alloc, identity, &ENDS)
    } else {
        Target::new(alloc, identity, &OBJECTS)
    };
    words.had(made)
}

fn copied(identity: &Identity, words: &mut Words) -> Option<Identity> {
    let alloc = words.alloc;
    let before = fields_shown(alloc, identity.fields())?;
    words.open();
    let copy = words.had(identity.copy(alloc));
    if copy.is_none() {
        let after = fields_shown(alloc, identity.fields())?;
        words.same = Some(after.as_str() == before.as_str());
    }
    copy
}

// `MAJOR NAME`: what the copy of such an identity shows, or whether one is legal, and then is its
// own copy.
fn copy(is_shown: bool, words: &mut Words) -> Option<String> {
    let alloc = words.alloc;
    let major = words.u8()?;
    let name = words.bytes()?;
    match identity(alloc, major, name.as_slice())? {
        Some(identity) => {
            let copy = copied(&identity, words)?;
            if is_shown {
                fields_shown(alloc, copy.fields())
            } else {
                text(alloc, copy.fields() == identity.fields())
            }
        }
        None if is_shown => None,
        None => text(alloc, false),
    }
}

// `REQUEST`: whether it is a reset that is not refused, and the whole reply to what is not.
fn reply(target: &mut Target, words: &mut Words) -> Option<String> {
    let alloc = words.alloc;
    let bytes = words.bytes()?;
    let request = read_request(bytes.as_slice()).ok()?;
    if target.reads_reset(request) {
        return text(alloc, "for the device");
    }
    words.open();
    let reply = target.answer(alloc, request);
    let reply = words.had(reply)?;
    text(alloc, PairsOrCount(reply.as_slice()))
}

// `OT_PARAMS TO_PARAMS TRANSPORT PATH`: the additional status of an open, which is taken where it
// fits and is to be.
fn open(target: &mut Target, large: bool, is_taken: bool, words: &mut Words) -> Option<String> {
    let fields = OpenFields {
        timing: Timing {
            tick: 7,
            ticks: 247,
        },
        ot_id: 0,
        to_id: 0x31,
        triad: Triad {
            serial: 0x42,
            vendor: 0x0101,
            originator: 0x0A0B_0C0D,
        },
        multiplier: 0,
        ot_rpi: 10_000,
        ot_params: words.u32()?,
        to_rpi: 10_000,
        to_params: words.u32()?,
        transport: words.u8()?,
        large,
    };
    let path = words.bytes()?;
    let path = view_path(path.as_slice()).ok()?;
    let asked = OpenView { fields, path };
    match target.check(&asked) {
        Ok(link) => {
            if is_taken {
                target.accept(&link, &asked);
            }
            text(words.alloc, "fits")
        }
        Err(status) => text(words.alloc, Digits(u32::from(status.extra?))),
    }
}

// `INSTANCE BYTES`: whether the assembly takes them.
fn consume(target: &mut Target, words: &mut Words) -> Option<String> {
    let instance = words.u16()?;
    let bytes = words.bytes()?;
    let is_taken = match target.assembly(u32::from(instance)) {
        Some(assembly) if usize::from(assembly.size) == bytes.len() => {
            target.consume(instance, bytes.as_slice());
            true
        }
        _ => false,
    };
    text(words.alloc, is_taken)
}

// A question about identities, or about the target as a whole.
fn whole(target: &mut Target, name: &str, words: &mut Words) -> Option<String> {
    let alloc = words.alloc;
    match name {
        "Target::new" => {
            *target = made(words)?;
            state(alloc, target)
        }
        "Identity::copy" => copy(true, words),
        "legal" => copy(false, words),
        "serial" => text(alloc, target.identity().serial),
        "reset" => {
            target.reset();
            text(alloc, "done")
        }
        // `REQUEST`: whether it is a reset that is not refused
        "reads_reset" => {
            let bytes = words.bytes()?;
            let request = read_request(bytes.as_slice()).ok()?;
            text(alloc, target.reads_reset(request))
        }
        _ => None,
    }
}

/// The answer to a question of this name.
pub fn answer(target: &mut Target, name: &str, words: &mut Words) -> Option<String> {
    let alloc = words.alloc;
    match name {
        "answer" => reply(target, words),
        // the assembly of the least instance of all, or above the one that is given
        "least" | "after" => {
            let after = if name == "after" {
                Some(words.u16()?)
            } else {
                None
            };
            match target.next_after(after) {
                Some((instance, bytes)) => text(alloc, Then(instance, PairsOrCount(bytes))),
                None => text(alloc, "none"),
            }
        }
        "status" => open(target, false, false, words),
        "large_status" => open(target, true, false, words),
        "open" => open(target, false, true, words),
        "consume" => consume(target, words),
        // `INSTANCE`: the bytes of the assembly
        "produce" => {
            let instance = words.u16()?;
            match target.assembly(u32::from(instance)) {
                Some(_) => text(alloc, PairsOrCount(target.produce(instance))),
                None => text(alloc, "none"),
            }
        }
        // `INSTANCE`: whether there is such an assembly, which then has no owner
        "release" => {
            let instance = words.u16()?;
            let is_there = target.assembly(u32::from(instance)).is_some();
            if is_there {
                target.release(instance);
            }
            text(alloc, is_there)
        }
        _ => whole(target, name, words),
    }
}
