//! The target as the end of connections.
ghost use Rattle.std.specs.Prelude.{◌≡◌, ◌≤◌, length, Ok, IsSome};
ghost use Rattle.std.specs.FinMap as map;
ghost use Rattle.cip_open.specs.Reading.{open_of};
ghost use Rattle.cip_target.specs.Assemblies.{HasSize, config_in};
ghost use Rattle.cip_target.specs.Ends.{end_gives, row_at, accepted, consumed, released};
ghost use Rattle.cip_target.specs.Viewed.{application_seen, IsJoining};

use crate::application::{ApplicationView, application};
use crate::config::AssemblyConfig;
use crate::ends::{EndRefusal, Joined, joined_row};
use crate::link::EndLink;
use crate::target::Target;
use cip_base::{MAX_DATUM, Status};
use cip_open::OpenView;

impl Target {
    // The assemblies that an application path names, if all three exist.
    fn joined<'a>(&self, application: ApplicationView<'a>) -> Option<Joined<'a>>
        ensures { IsJoining self.now.objects.assemblies
            (application_seen application.entry) result }
    {
        let Some(config) = self.assemblies.config(application.config) else {
            return None;
        };
        let Some(consume) = self.assemblies.config(application.consume) else {
            return None;
        };
        let Some(produce) = self.assemblies.config(application.produce) else {
            return None;
        };
        Some(Joined {
            config,
            consume,
            produce,
            bytes: application.bytes,
        })
    }

    /// The instance and size of an assembly, if it exists.
    pub fn assembly(&self, instance: u32) -> Option<AssemblyConfig>
        ensures { result ≡ config_in self.now.objects.assemblies instance }
    {
        self.assemblies.config(instance)
    }

    /// Whether an open can end here (Volume 1, chapter 3, Forward_Open): what it joins, or the
    /// first row that fits, in the order of `EndRefusal`. It takes no memory.
    #[tactic(auto, unfolding(crate::specs::Ends::end_row))]
    pub fn end_row(&self, asked: &OpenView<'_>) -> Result<EndLink, EndRefusal>
        ensures { result ≡ row_at self.now (open_of asked.now) }
    {
        match application(asked.path) {
            None => Err(EndRefusal::NotAnApplicationPath),
            Some(application) => match self.joined(application) {
                None => Err(EndRefusal::NoSuchInstanceOrConfiguration),
                Some(joined) => {
                    let owned = self.assemblies.is_owned(u32::from(joined.consume.instance));
                    joined_row(&asked.fields, &joined, owned)
                }
            },
        }
    }

    /// Whether an open can end here: what it joins, or the status of the first row that fits. It
    /// takes no memory.
    pub fn check(&self, asked: &OpenView<'_>) -> Result<EndLink, Status>
        ensures { result ≡ end_gives (row_at self.now (open_of asked.now)) }
    {
        match self.end_row(asked) {
            Ok(link) => Ok(link),
            Err(refusal) => Err(refusal.status()),
        }
    }

    /// Takes an open that `check` gave this link: enters the connection as the owner of the O→T
    /// instance if that has bytes, and writes the configuration bytes, without a pad. It takes no
    /// memory.
    pub fn accept(&mut self, link: &EndLink, asked: &OpenView<'_>)
        requires { row_at self.old (open_of asked.now) ≡ Ok link.now }
        ensures { self.new ≡ accepted self.old link.now (open_of asked.now) }
    {
        let Some(application) = application(asked.path) else {
            unreachable!()
        };
        self.assemblies
            .own(u32::from(link.consume), asked.fields.triad);
        self.assemblies
            .configure(u32::from(link.config), application.bytes);
    }

    /// Writes a datum, without its sequence count, to an assembly of as many bytes. It takes no
    /// memory.
    pub fn consume(&mut self, instance: u16, data_: &[u8])
        requires { HasSize self.old.objects.assemblies instance (length data_.now) }
        ensures { self.new ≡ consumed self.old instance data_.now }
    {
        self.assemblies.write(u32::from(instance), data_);
    }

    /// The bytes of an assembly that exists. It takes no memory.
    pub fn produce(&self, instance: u16) -> &[u8]
        requires { IsSome (map.get self.now.objects.assemblies instance) }
        ensures value { map.get self.now.objects.assemblies instance ≡ Some result.now }
        ensures fits { length result.now ≤ MAX_DATUM }
    {
        match self.assemblies.get(u32::from(instance)) {
            Some(bytes) => bytes,
            None => unreachable!(),
        }
    }

    /// Gives back an instance that exists: it has no owner any more. It takes no memory.
    pub fn release(&mut self, instance: u16)
        requires { IsSome (map.get self.old.objects.assemblies instance) }
        ensures { self.new ≡ released self.old instance }
    {
        self.assemblies.disown(u32::from(instance));
    }
}
