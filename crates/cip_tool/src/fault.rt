//! Why a text names no path.
ghost use Rattle.std.specs.Prelude.{◌≡◌};
ghost use Rattle.cip_tool.specs.declared.fault.WordError.TheVariants.{NoMemory as NoWordMemory};
ghost use Rattle.cip_tool.specs.declared.fault.RouteFault.TheVariants.{NoMemory as NoRouteMemory};

use cip_base::NoMemory;
use std::alloc::{AllocError, AllocFailed};
use std::fmt;
use thiserror::Error;

/// Why a word of a path in words is none that may stand there.
#[derive(Clone, Copy, Debug, Error)]
pub enum WordFault {
    #[error("no port; allowed: 1 to 65535, backplane for 1, enet for 2")]
    Port,
    #[error("a port with no address behind it; needed: PORT,ADDRESS")]
    NoAddress,
    #[error("no address; allowed: 0 to 255, 2 to 16 characters, not digits alone, without @ and =, \
        or 0x and 1 to 16 pairs of hexadecimal digits")]
    Address,
    #[error("no object; allowed: @CLASS, @CLASS/INSTANCE, @CLASS/INSTANCE/ATTRIBUTE")]
    Object,
    #[error("no class; allowed: 0 to 65535")]
    Class,
    #[error("no instance; allowed: 0 to 4294967295")]
    Instance,
    #[error("no attribute; allowed: 0 to 65535")]
    Attribute,
    #[error("no member; allowed: 0 to 65535")]
    Member,
    #[error("no connection point; allowed: 0 to 4294967295")]
    Point,
    #[error("no production inhibit time; allowed: 0 to 255")]
    Inhibit,
    #[error("no key; allowed: VENDOR/TYPE/PRODUCT/MAJOR/MINOR, three to 65535 and two to 255")]
    Key,
    #[error("no data; allowed: groups of four hexadecimal digits, at most 255")]
    Data,
    #[error("no symbol; allowed: at most 255 characters, or 0x and pairs of hexadecimal digits")]
    Symbol,
    #[error("no name; allowed: instance=, attribute=, member=, point=, inhibit=, key=, data=, \
        symbol=")]
    Name,
}

/// Why a word gave nothing.
#[derive(Clone, Copy)]
pub(crate) enum WordError {
    Fault(WordFault),
    NoMemory,
}

impl From<AllocError> for WordError {
    ghost from_gives = { λ _ e. e ≡ NoWordMemory };

    fn from(_refused: AllocError) -> WordError {
        WordError::NoMemory
    }
}

impl<T: Drop> From<AllocFailed<T>> for WordError {
    ghost from_gives = { λ _ e. e ≡ NoWordMemory };

    fn from(_refused: AllocFailed<T>) -> WordError {
        WordError::NoMemory
    }
}

/// Why a text names no path.
#[derive(Clone, Copy, Error)]
pub enum RouteFault {
    /// The word of this number, from 1, is none that may stand there.
    #[error("word {0}: {1}")]
    Word(usize, WordFault),
    /// The path would have more than 510 bytes.
    #[error("a path has at most 510 bytes")]
    TooLong,
    /// An allocation was refused.
    #[error("out of memory")]
    NoMemory,
}

impl fmt::Debug for RouteFault {
    fn fmt<W: fmt::Write>(&self, f: &mut fmt::Formatter<W>) -> fmt::Result {
        fmt::Display::fmt(self, f)
    }
}

impl From<AllocError> for RouteFault {
    ghost from_gives = { λ _ e. e ≡ NoRouteMemory };

    fn from(_refused: AllocError) -> RouteFault {
        RouteFault::NoMemory
    }
}

impl<T: Drop> From<AllocFailed<T>> for RouteFault {
    ghost from_gives = { λ _ e. e ≡ NoRouteMemory };

    fn from(_refused: AllocFailed<T>) -> RouteFault {
        RouteFault::NoMemory
    }
}

impl From<NoMemory> for RouteFault {
    fn from(_refused: NoMemory) -> RouteFault {
        RouteFault::NoMemory
    }
}
