//! Whether an electronic key fits a module.
ghost use Rattle.std.specs.Prelude.{◌≡◌};
ghost use Rattle.cip_segment.specs.Reading.{segments_of};
ghost use Rattle.cip_routing.specs.Keys.{fits, minor_fits, key_mismatch, leading_mismatch};

use crate::refusals::KeyPart;
use cip_base::KeyFields;
use cip_config::ModuleSettings;
use cip_segment::{PathView, SegmentView, split_first};
use cip_target::IdentityFields;

// A field of 0 fits anything.
fn fits(asked: u16, own: u16) -> bool
    ensures { result ≡ fits asked own }
{
    asked == 0 || asked == own
}

// With the compatibility flag the module's minor revision may be later.
fn minor_fits(identity: &IdentityFields, key: KeyFields) -> bool
    ensures { result ≡ minor_fits identity.now key }
{
    if key.minor == 0 {
        true
    } else if key.major >= 128 {
        key.minor <= identity.minor
    } else {
        key.minor == identity.minor
    }
}

fn key_mismatch(identity: &IdentityFields, key: KeyFields) -> Option<KeyPart>
    ensures { result ≡ key_mismatch identity.now key }
{
    if !(fits(key.vendor, identity.vendor) && fits(key.product, identity.product)) {
        Some(KeyPart::VendorOrProduct)
    } else if !fits(key.device_type, identity.device_type) {
        Some(KeyPart::DeviceType)
    } else if !(fits(u16::from(key.major % 128), u16::from(identity.major))
        && minor_fits(identity, key))
    {
        Some(KeyPart::Revision)
    } else {
        None
    }
}

/// What differs from the module of the electronic key that a path begins with, if it begins with
/// one (Volume 1, Appendix C, Electronic Key segment).
pub fn leading_mismatch(settings: &ModuleSettings, path: PathView<'_>) -> Option<KeyPart>
    ensures { result ≡ leading_mismatch settings.now (segments_of path.entry.bytes.now) }
{
    let [head, ..] = path.bytes else {
        return None;
    };
    // No other segment begins as a key does.
    if *head != 0x34 {
        return None;
    }
    match split_first(path) {
        None => None,
        Some((first, _)) => match first {
            SegmentView::Key(key) => key_mismatch(settings.identity.fields(), key),
            _ => None,
        },
    }
}
