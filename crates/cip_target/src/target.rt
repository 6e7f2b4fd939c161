//! The target of a module.
ghost use Rattle.std.specs.Prelude.{◌≡◌, ◌≤◌, false, length, IfOk, IsTrue, is_ok};
ghost use Rattle.std.specs.Option.{ForSome};
ghost use Rattle.std.specs.List.{list_all};
ghost use Rattle.cip_message.specs.Reading.{request_of};
ghost use Rattle.cip_message.specs.Reply.{reply_bytes};
ghost use Rattle.cip_target.specs.Assemblies.{is_assembly, zeroed, first_above};
ghost use Rattle.cip_target.specs.Identity.{is_identity, identity_bytes};
ghost use Rattle.cip_target.specs.Rows.{read_row, get_row, reset_row, set_identity_row};
ghost use Rattle.cip_target.specs.Rows.{set_assembly_row, identity_attribute, assembly_attribute};
ghost use Rattle.cip_target.specs.Rows.{identity_row, assembly_row, plain_reply};
ghost use Rattle.cip_target.specs.Objects.{row_of_object, row_of, reads_reset, answer_bytes};
ghost use Rattle.cip_target.specs.Ends.{fresh, ends_if, reset};
ghost use Rattle.cip_target.specs.Held.{unowned};
ghost use Rattle.cip_target.specs.Seen.{bytes_seen, assembly_seen, seen, IsSmall};

use crate::assemblies::Assemblies;
use crate::config::AssemblyConfig;
use crate::identity::{Identity, IdentityFields};
use crate::object::{ObjectPath, object_path};
use crate::rows::{Row, TargetRefusal};
use cip_base::{Bytes, MAX_DATUM, NoMemory, Status};
use cip_message::{RequestView, WriteFault, write_reply};
use std::alloc::Global;
use std::marker::Model;

/// The Identity object and the Assembly objects of a module, which answer requests to classes 1 and
/// 4, and are the end of connections (Volume 1, chapters 3 and 5). A contract sees the fields of
/// the identity, and the finite maps from instances to bytes and to the triads of the connections
/// that own them as outputs.
pub struct Target {
    identity: Identity,
    attributes: Bytes,
    pub(crate) assemblies: Assemblies,
}

// (A derive would be written, and proved, anew in each crate above.)
impl Drop for Target {
    fn drop(self) {
        let Target {
            identity: _,
            attributes: _,
            assemblies: _,
        } = self;
    }
}

impl Model for Target {
    ghost use Rattle.cip_base.specs.declared.limits.TheConstants.{MAX_DATUM};
    ghost use Rattle.std.specs.Prelude.{◌≡◌, ◌≤◌, length};
    ghost use Rattle.std.specs.Coded.{codes};
    ghost use Rattle.cip_target.specs.Assemblies.{coded_assemblies, coded_owners};
    ghost use Rattle.cip_target.specs.contracts.identity.IdentityFields as fields;
    ghost use Rattle.cip_target.specs.Identity.{identity_bytes};
    ghost use Rattle.cip_target.specs.Ends.{Ends, ends_with};

    ghost Value = { Ends };

    ghost coded = { Prim.hlevel (codes, fields.the_row.coded, coded_assemblies, coded_owners) };

    ghost view = { λ t. ends_with t.identity t.assemblies };

    ghost invariant = { λ t.
        (t.attributes ≡ identity_bytes t.identity) × (length t.attributes ≤ MAX_DATUM) };
}

// Reading takes no data.
fn read<'a>(found: &'a [u8], data_: &[u8]) -> Row<'a>
    requires { length found.now ≤ MAX_DATUM }
    ensures is { seen data_.now result ≡ read_row found.entry.now data_.now }
    ensures fits { IsSmall result }
{
    if data_.is_empty() {
        Row::Read(found)
    } else {
        Row::Refused(TargetRefusal::DataLong)
    }
}

// Reading an attribute, if there is one.
fn get<'a>(found: Option<&'a [u8]>, data_: &[u8]) -> Row<'a>
    requires { ForSome found (λ d. length d.now ≤ MAX_DATUM) }
    ensures is { seen data_.now result ≡ get_row (bytes_seen found.entry) data_.now }
    ensures fits { IsSmall result }
{
    match found {
        None => Row::Refused(TargetRefusal::NoSuchAttribute),
        Some(found) => read(found, data_),
    }
}

// A reset takes no data, or one byte, the type of reset.
fn reset<'a>(data_: &[u8]) -> Row<'a>
    ensures is { seen data_.now result ≡ reset_row data_.now }
    ensures fits { IsSmall result }
{
    if data_.len() > 1 {
        Row::Refused(TargetRefusal::DataLong)
    } else {
        Row::Reset
    }
}

// No attribute of the Identity can be set.
fn set_identity<'a>(found: Option<&[u8]>, data_: &[u8]) -> Row<'a>
    ensures is { seen data_.now result ≡ set_identity_row (bytes_seen found.entry) }
    ensures fits { IsSmall result }
{
    match found {
        None => Row::Refused(TargetRefusal::NoSuchAttribute),
        Some(_) => Row::Refused(TargetRefusal::NotSettable),
    }
}

// An assembly is set whole.
fn set_assembly<'a>(instance: u32, found: Option<&[u8]>, data_: &[u8]) -> Row<'a>
    ensures is { seen data_.now result
        ≡ set_assembly_row instance (bytes_seen found.entry) data_.now }
    ensures fits { IsSmall result }
{
    match found {
        None => Row::Refused(TargetRefusal::NoSuchAttribute),
        Some(held) => {
            if data_.len() < held.len() {
                Row::Refused(TargetRefusal::DataShort)
            } else if data_.len() > held.len() {
                Row::Refused(TargetRefusal::DataLong)
            } else {
                Row::Written(instance)
            }
        }
    }
}

// Attribute 3 of an assembly is its data.
fn assembly_attribute(held: &[u8], attribute: Option<u16>) -> Option<&[u8]>
    requires { length held.now ≤ MAX_DATUM }
    ensures is { bytes_seen result ≡ assembly_attribute held.now attribute }
    ensures fits { ForSome result (λ d. length d.now ≤ MAX_DATUM) }
{
    match attribute {
        Some(3) => Some(held),
        _ => None,
    }
}

// The services of an assembly.
fn assembly_service<'a>(
    instance: u32,
    held: Option<&'a [u8]>,
    service: u8,
    attribute: Option<u16>,
    data_: &[u8],
) -> Row<'a>
    requires { ForSome held (λ d. length d.now ≤ MAX_DATUM) }
    ensures is { seen data_.now result
        ≡ assembly_row instance (bytes_seen held.entry) service attribute data_.now }
    ensures fits { IsSmall result }
{
    match held {
        None => Row::Refused(TargetRefusal::NoSuchInstance),
        Some(held) => match service {
            0x0E => get(assembly_attribute(held, attribute), data_),
            0x10 => set_assembly(instance, assembly_attribute(held, attribute), data_),
            _ => Row::Refused(TargetRefusal::ServiceNotSupported),
        },
    }
}

impl Target {
    /// A target of this identity, with these assemblies, all of whose bytes are 00. Where an
    /// instance stands twice, the last size counts. The condition is that each instance is from 1
    /// and each size at most 65,535.
    pub fn new(
        alloc: Global,
        identity: Identity,
        assemblies: &[AssemblyConfig],
    ) -> Result<Target, NoMemory>
        requires { IsTrue (list_all is_assembly assemblies.now) }
        ensures { IfOk result (λ target. target ≡ fresh identity assemblies.now) }
    {
        let attributes = identity.to_bytes(alloc)?;
        let assemblies = zeroed_assemblies(alloc, assemblies)?;
        Ok(Target {
            identity,
            attributes,
            assemblies,
        })
    }

    // An attribute of the Identity.
    fn identity_attribute(&self, attribute: Option<u16>) -> Option<&[u8]>
        ensures is { bytes_seen result ≡ identity_attribute self.now.objects.identity attribute }
        ensures fits { ForSome result (λ d. length d.now ≤ MAX_DATUM) }
    {
        let attributes = self.attributes.as_slice();
        match attribute? {
            1 => Some(&attributes[0..2]),
            2 => Some(&attributes[2..4]),
            3 => Some(&attributes[4..6]),
            4 => Some(&attributes[6..8]),
            5 => Some(&attributes[8..10]),
            6 => Some(&attributes[10..14]),
            7 => Some(&attributes[14..]),
            _ => None,
        }
    }

    // The services of the Identity.
    fn identity_service(&self, service: u8, attribute: Option<u16>, data_: &[u8]) -> Row<'_>
        ensures is { seen data_.now result
            ≡ identity_row self.now.objects.identity service attribute data_.now }
        ensures fits { IsSmall result }
    {
        match service {
            0x01 => read(self.attributes.as_slice(), data_),
            0x05 => reset(data_),
            0x0E => get(self.identity_attribute(attribute), data_),
            0x10 => set_identity(self.identity_attribute(attribute), data_),
            _ => Row::Refused(TargetRefusal::ServiceNotSupported),
        }
    }

    // The services of the object that a path names.
    fn object_service(&self, object: ObjectPath, service: u8, data_: &[u8]) -> Row<'_>
        ensures is { seen data_.now result
            ≡ row_of_object self.now.objects object service data_.now }
        ensures fits { IsSmall result }
    {
        match object.class_ {
            1 => {
                if object.instance == 1 {
                    self.identity_service(service, object.attribute, data_)
                } else {
                    Row::Refused(TargetRefusal::NoSuchInstance)
                }
            }
            4 => {
                let held = self.assemblies.get(object.instance);
                assembly_service(object.instance, held, service, object.attribute, data_)
            }
            _ => Row::Refused(TargetRefusal::ClassNotSupported),
        }
    }

    // The first row that fits.
    #[tactic(auto, unfolding(crate::specs::Rows::target_row))]
    fn row(&self, request: RequestView<'_>) -> Row<'_>
        ensures is { seen request.entry.data_.now result
            ≡ row_of self.now.objects (request_of request.entry) }
        ensures fits { IsSmall result }
    {
        match object_path(request.path) {
            None => Row::Refused(TargetRefusal::PathFormNotSupported),
            Some(object) => self.object_service(object, request.service, request.data_),
        }
    }

    /// Whether a request is an Identity Reset (Volume 1, chapter 5, Identity object, service 05)
    /// that no row refuses: its path names class 1, instance 1, and it has no data or one byte of
    /// any value. Such a request is for the whole device, which answers it and calls `reset`. It
    /// takes no memory.
    pub fn reads_reset(&self, request: RequestView<'_>) -> bool
        ensures { result ≡ reads_reset self.now.objects (request_of request.entry) }
    {
        // Most requests are told by their service, without a look at their path.
        request.service == 0x05 && matches!(self.row(request), Row::Reset)
    }

    /// The whole reply to a request (Volume 1, chapter 2, Message Router; chapter 5, Identity and
    /// Assembly objects). The request's path names a class, an instance and perhaps an attribute,
    /// in any spelling. Any view is answered, also one that no bytes were read as; the service of
    /// the reply is the request's with bit 7 set.
    ///
    /// Identity, class 1, instance 1: Get_Attributes_All 01, Get_Attribute_Single 0E of attributes
    /// 1 to 7, none of which can be set; a Reset 05 that is not refused is not answered here.
    /// Assembly, class 4: Get_Attribute_Single 0E and Set_Attribute_Single 10 of attribute 3, its
    /// data, set whole. Otherwise the reply has the general status of the first `TargetRefusal`
    /// that fits. NoMemory changes nothing. The condition is that `reads_reset` is false.
    pub fn answer(&mut self, alloc: Global, request: RequestView<'_>) -> Result<Bytes, NoMemory>
        requires { reads_reset self.old.objects (request_of request) ≡ false }
        ensures ok { IfOk result
            (λ b. b ≡ answer_bytes self.old.objects (request_of request.entry)) }
        ensures after { self.new ≡ ends_if (is_ok result) self.old (request_of request.entry) }
    {
        match self.row(request) {
            Row::Refused(refusal) => reply(alloc, request.service, refusal.status(), &[]),
            Row::Read(found) => reply(alloc, request.service, 0, found),
            Row::Written(instance) => {
                let done = reply(alloc, request.service, 0, &[])?;
                self.assemblies.write(instance, request.data_);
                Ok(done)
            }
            Row::Reset => unreachable!(),
        }
    }

    /// Resets the target: it is as `Target::new` makes it of the same identity and assemblies, each
    /// of its size with all bytes 00; all instances are released. It takes no memory.
    pub fn reset(&mut self)
        ensures { self.new ≡ reset self.old }
    {
        self.assemblies.reset();
    }

    /// The fields of the identity.
    pub fn identity(&self) -> &IdentityFields
        ensures value { result.now ≡ self.now.objects.identity }
        ensures legal { IsTrue (is_identity result.now) }
    {
        self.identity.fields()
    }

    /// The assembly of the least instance above this one, or of all, with its bytes.
    pub fn next_after(&self, after: Option<u16>) -> Option<(u16, &[u8])>
        ensures { assembly_seen result ≡ first_above after self.now.objects.assemblies }
    {
        self.assemblies.next_above(after)
    }
}

fn zeroed_assemblies(alloc: Global, configs: &[AssemblyConfig]) -> Result<Assemblies, NoMemory>
    requires { IsTrue (list_all is_assembly configs.now) }
    ensures { IfOk result (λ assemblies. assemblies ≡ unowned (zeroed configs.now)) }
{
    let mut assemblies = Assemblies::new(alloc);
    for config in configs {
        let bytes = vec![in alloc; 0; usize::from(config.size)]?;
        assemblies.hold(config.instance, Bytes::of(bytes))?;
    }
    Ok(assemblies)
}

// The reply of a general status alone, with data.
fn reply(alloc: Global, service: u8, general: u8, data_: &[u8]) -> Result<Bytes, NoMemory>
    requires { length data_.now ≤ MAX_DATUM }
    ensures { IfOk result (λ bytes. bytes ≡ reply_bytes (plain_reply service general data_.now)) }
{
    let service = if service < 0x80 {
        0x80 + service
    } else {
        service
    };
    let status = Status {
        general,
        extra: None,
    };
    match write_reply(alloc, service, status, data_) {
        Ok(bytes) => Ok(bytes),
        Err(WriteFault::NoMemory) => Err(NoMemory),
        Err(WriteFault::TooLong) => unreachable!(),
    }
}
