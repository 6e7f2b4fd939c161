//! The assemblies of a target, in rising instance.
ghost use Rattle.std.specs.Prelude.{◌≡◌, ◌≤◌, ◌==◌, nat_le, length, IfSome, IsSomeAnd, is_ok};
ghost use Rattle.std.specs.Prelude.{is_some, if◌then◌else◌};
ghost use Rattle.std.specs.List.{position};
ghost use Rattle.std.specs.FinMap as map;
ghost use Rattle.cip_target.specs.Assemblies.{HasSize, zeroed, configs_in, config_in, first_above};
ghost use Rattle.cip_target.specs.Assemblies.{is_above};
ghost use Rattle.cip_target.specs.Held.{unowned, with_fresh, with_bytes, with_front, with_output};
ghost use Rattle.cip_target.specs.Held.{without_owner, all_cleared};
ghost use Rattle.cip_target.specs.Seen.{bytes_seen, assembly_seen};

use crate::assembly::Assembly;
use crate::config::AssemblyConfig;
use cip_base::{Bytes, MAX_DATUM, NoMemory, Triad};
use std::alloc::Global;
use std::marker::Model;

/// Each assembly under its instance. A contract sees the finite maps of bytes and of owners.
#[derive(Drop)]
pub(crate) struct Assemblies {
    held: Vec<(u16, Assembly)>,
}

impl Model for Assemblies {
    ghost use Rattle.std.specs.Coded.{codes};
    ghost use Rattle.std.specs.FinMap as map;
    ghost use Rattle.cip_target.specs.Assemblies.{coded_assemblies, coded_owners};
    ghost use Rattle.cip_target.specs.Held.{Holdings, IsHeld, holdings};

    ghost Value = { Holdings };

    ghost coded = { Prim.hlevel (codes, coded_assemblies, coded_owners) };

    ghost view = { λ a. holdings (map.from_sorted a.held.items) };

    ghost invariant = { λ a. IsHeld a.held.items };
}

// Where an instance stands.
fn place_of(held: &[(u16, Assembly)], instance: u32) -> Option<usize>
    ensures { result ≡ position (λ e. e.0 == instance) held.now }
{
    held.iter().position(|e| u32::from(e.0) == instance)
}

// Where the instances from this one on begin.
fn place_from(held: &[(u16, Assembly)], instance: u16) -> Option<usize>
    ensures { result ≡ position (λ e. nat_le instance e.0) held.now }
{
    held.iter().position(|e| instance <= e.0)
}

fn is_above(after: Option<u16>, instance: u16) -> bool
    ensures { result ≡ is_above after instance }
{
    match after {
        None => true,
        Some(last) => last < instance,
    }
}

// Where the instances above this one begin.
fn place_above(held: &[(u16, Assembly)], after: Option<u16>) -> Option<usize>
    ensures { result ≡ position (λ e. is_above after e.0) held.now }
{
    held.iter().position(|e| is_above(after, e.0))
}

fn clear_all(held: &mut [(u16, Assembly)], alloc: Global)
    ensures { held.new ≡ all_cleared held.old }
{
    for entry in held.iter_mut() {
        entry.1.clear(alloc);
    }
}

impl Assemblies {
    /// No assembly.
    pub(crate) fn new(alloc: Global) -> Assemblies
        ensures { result ≡ unowned map.empty }
    {
        Assemblies {
            held: Vec::new(alloc),
        }
    }

    /// Keeps an assembly without an owner, in the place of one of the same instance.
    pub(crate) fn hold(&mut self, instance: u16, bytes: Bytes) -> Result<(), NoMemory>
        requires { length bytes ≤ MAX_DATUM }
        ensures { self.new
            ≡ (if is_ok result then with_fresh self.old instance bytes else self.old) }
    {
        let assembly = Assembly { bytes, owner: None };
        match place_from(&self.held, instance) {
            None => self.held.push((instance, assembly))?,
            Some(at) => {
                if self.held[at].0 == instance {
                    self.held[at].1 = assembly;
                } else {
                    self.held.insert(at, (instance, assembly))?;
                }
            }
        }
        Ok(())
    }

    /// The bytes of an instance.
    pub(crate) fn get(&self, instance: u32) -> Option<&[u8]>
        ensures value { bytes_seen result ≡ map.get self.now.bytes instance }
        ensures fits { IfSome result (λ d. length d.now ≤ MAX_DATUM) }
    {
        let at = place_of(&self.held, instance)?;
        Some(self.held[at].1.bytes.as_slice())
    }

    /// The instance and its size.
    pub(crate) fn config(&self, instance: u32) -> Option<AssemblyConfig>
        ensures { result ≡ config_in self.now.bytes instance }
    {
        let at = place_of(&self.held, instance)?;
        let found = &self.held[at];
        Some(AssemblyConfig {
            instance: found.0,
            size: found.1.bytes.as_slice().len() as u16,
        })
    }

    /// Whether an instance has an owner.
    pub(crate) fn is_owned(&self, instance: u32) -> bool
        ensures { result ≡ is_some (map.get self.now.owners instance) }
    {
        match place_of(&self.held, instance) {
            None => false,
            Some(at) => self.held[at].1.owner.is_some(),
        }
    }

    /// Writes the bytes of an instance that is there.
    pub(crate) fn write(&mut self, instance: u32, bytes: &[u8])
        requires { HasSize self.old.bytes instance (length bytes.now) }
        ensures { self.new ≡ with_bytes self.old instance bytes.now }
    {
        if let Some(at) = place_of(&self.held, instance) {
            self.held[at].1.bytes.overwrite(bytes);
        }
    }

    /// Writes as much of the bytes as an instance that is there has.
    pub(crate) fn configure(&mut self, instance: u32, bytes: &[u8])
        requires { IsSomeAnd (map.get self.old.bytes instance) (λ d. length d ≤ length bytes.now) }
        ensures { self.new ≡ with_front self.old instance bytes.now }
    {
        let Some(held) = self.get(instance) else {
            unreachable!()
        };
        let size = held.len();
        self.write(instance, &bytes[..size]);
    }

    /// Enters the owner of an instance that has bytes.
    pub(crate) fn own(&mut self, instance: u32, triad: Triad)
        ensures { self.new ≡ with_output self.old instance triad }
    {
        if let Some(at) = place_of(&self.held, instance) {
            if !self.held[at].1.bytes.as_slice().is_empty() {
                self.held[at].1.owner = Some(triad);
            }
        }
    }

    /// Takes out the owner of an instance, if it has one.
    pub(crate) fn disown(&mut self, instance: u32)
        ensures { self.new ≡ without_owner self.old instance }
    {
        if let Some(at) = place_of(&self.held, instance) {
            self.held[at].1.owner = None;
        }
    }

    /// Makes all bytes 00, and takes out all owners.
    pub(crate) fn reset(&mut self)
        ensures { self.new ≡ unowned (zeroed (configs_in self.old.bytes)) }
    {
        let alloc = *self.held.allocator();
        clear_all(&mut self.held, alloc);
    }

    /// The assembly of the least instance above, or of all.
    pub(crate) fn next_above(&self, after: Option<u16>) -> Option<(u16, &[u8])>
        ensures { assembly_seen result ≡ first_above after self.now.bytes }
    {
        let at = place_above(&self.held, after)?;
        let found = &self.held[at];
        Some((found.0, found.1.bytes.as_slice()))
    }
}
