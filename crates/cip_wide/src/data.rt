//! What a line expects of data: of those that came, and of those that assemblies hold.

use crate::fault::{LineError, unmet};
use crate::reading::{Named, bytes_of, instance_of};
use cip_base::{Bytes, ModuleId};
use cip_chassis::Topology;
use cip_outcomes::{
    Counted, Datum, Differing, OpName, Place, Unmet, module_name, newest_arrived, newest_consumed,
    standing_of,
};
use cip_world::{Shown, World, WorldFault};
use std::alloc::Global;

fn copy_of(alloc: Global, bytes: &[u8]) -> Result<Bytes, LineError> {
    Ok(Bytes::of(Vec::from_slice(alloc, bytes)?))
}

/// Bytes that came, beside those that were wanted; None where they are the same.
pub(crate) fn differing(
    alloc: Global,
    found: &[u8],
    word: &str,
) -> Result<Option<Differing>, LineError> {
    let wanted = bytes_of(alloc, word)?;
    if wanted.as_slice() == found {
        return Ok(None);
    }
    Ok(Some(Differing {
        found: copy_of(alloc, found)?,
        wanted,
    }))
}

fn assembly_place(topology: &Topology, at: ModuleId, instance: u32) -> Place {
    Place::Assembly {
        instance,
        module_: module_name(topology, at),
    }
}

// The datum that is found at a place is the one that is expected.
fn expect_datum(
    alloc: Global,
    kind: &'static str,
    place: Place,
    found: &[u8],
    word: &str,
) -> Result<(), LineError> {
    match differing(alloc, found, word)? {
        Some(bytes) => Err(unmet(alloc, Unmet::Datum { kind, place, bytes })),
        None => Ok(()),
    }
}

/// `arrived OP BYTES`
pub(crate) fn expect_arrived(
    alloc: Global,
    world: &World,
    op: Named<'_>,
    word: &str,
) -> Result<(), LineError> {
    let name = OpName::of_word(world.topology(), op.word, op.at, op.number);
    match newest_arrived(world.journal(), op.at, op.number) {
        Some(found) => expect_datum(alloc, "arrived", Place::Op(name), found.as_slice(), word),
        None => {
            let _bytes = bytes_of(alloc, word)?;
            Err(unmet(
                alloc,
                Unmet::NoDatum {
                    kind: "arrived",
                    place: Place::Op(name),
                },
            ))
        }
    }
}

// The last datum that came to an assembly, where it has these bytes.
fn consumed<'a>(
    alloc: Global,
    world: &'a World,
    kind: &'static str,
    at: ModuleId,
    instance: u32,
    word: &str,
) -> Result<Datum<'a>, LineError> {
    let place = assembly_place(world.topology(), at, instance);
    match newest_consumed(world.journal(), at, instance) {
        Some(datum) => {
            expect_datum(alloc, kind, place, datum.bytes.as_slice(), word)?;
            Ok(datum)
        }
        None => {
            let _bytes = bytes_of(alloc, word)?;
            Err(unmet(alloc, Unmet::NoDatum { kind, place }))
        }
    }
}

/// `consumed M INSTANCE BYTES`: one that does not repeat its count.
pub(crate) fn expect_consumed(
    alloc: Global,
    world: &World,
    at: ModuleId,
    instance: &str,
    word: &str,
) -> Result<(), LineError> {
    let instance = instance_of(alloc, instance)?;
    let datum = consumed(alloc, world, "consumed", at, instance, word)?;
    let topology = world.topology();
    match standing_of(topology, world.journal(), at, instance, datum) {
        Counted::Repeats(count) => Err(unmet(
            alloc,
            Unmet::Repeats {
                place: assembly_place(topology, at, instance),
                count,
            },
        )),
        _ => Ok(()),
    }
}

/// `repeated M INSTANCE BYTES`: one that repeats its count.
pub(crate) fn expect_repeated(
    alloc: Global,
    world: &World,
    at: ModuleId,
    instance: &str,
    word: &str,
) -> Result<(), LineError> {
    let instance = instance_of(alloc, instance)?;
    let datum = consumed(alloc, world, "repeated", at, instance, word)?;
    let topology = world.topology();
    match standing_of(topology, world.journal(), at, instance, datum) {
        Counted::Repeats(_) => Ok(()),
        counted => Err(unmet(
            alloc,
            Unmet::NotRepeated {
                place: assembly_place(topology, at, instance),
                counted,
            },
        )),
    }
}

fn no_assembly(alloc: Global, topology: &Topology, at: ModuleId, instance: u32) -> LineError {
    unmet(
        alloc,
        Unmet::NoAssembly {
            module_: module_name(topology, at),
            instance,
        },
    )
}

/// `assembly M INSTANCE BYTES`
pub(crate) fn expect_assembly(
    alloc: Global,
    world: &World,
    at: ModuleId,
    instance: &str,
    word: &str,
) -> Result<(), LineError>
    requires stand { ⟦<World as Shown>⟧.stands world.now }
{
    let number = instance_of(alloc, instance)?;
    let topology = world.topology();
    let tables = match world.tables(at) {
        Ok(tables) => tables,
        Err(WorldFault::NoMemory) => return Err(LineError::NoMemory),
        Err(_) => return Err(no_assembly(alloc, topology, at, number)),
    };
    for row in tables.assemblies.as_slice() {
        if u32::from(row.instance) == number {
            let place = assembly_place(topology, at, number);
            return expect_datum(alloc, "assembly", place, row.bytes.as_slice(), word);
        }
    }
    Err(no_assembly(alloc, topology, at, number))
}
