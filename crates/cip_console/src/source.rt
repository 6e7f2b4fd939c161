//! Where a script comes from and where a transcript goes to, with what failed and how often it was
//! asked.

ghost use Rattle.std.specs.Prelude.{◌≡◌, ℕ, ◌+◌, ◌<◌, ◌≤◌, List, Option, Some, IfOk, OnOk, OnErr};
ghost use Rattle.std.specs.Prelude.{IfSome, length};
ghost use Rattle.std.specs.Io.{ReadsAtMost, WritesAtMost};
ghost use Rattle.std.specs.Io.KnownBytes.{Appends, ReadConsumes, WriteAppends};
ghost use Rattle.cip_console.specs.Known.{AppendsFront};
ghost use Rattle.cip_console.specs.declared.source.ReadFault.TheVariants.{NoMemory};

use cip_world::FrameName;
use std::alloc::{AllocError, Global};
use std::io;
use std::io::{Read, Write};

/// The most bytes of a script.
pub const SCRIPT_LIMIT: usize = 1_048_576;

/// How many times a source is asked at most: once for each byte, and once for the end.
pub const ASKS: usize = 1_048_577;

/// What gives a script.
pub trait Source {
    // the bytes that it has left, where they are known
    ghost remaining: { Self → Option (List ℕ) };
    // a read of it has failed
    ghost has_failed: { Self → Type 0 };
    // how many times it was asked
    ghost asks: { Self → ℕ };

    fn read(&mut self, buf: &mut [u8]) -> io::Result<usize>
        ensures bound { ReadsAtMost result buf.new }
        ensures bytes { ReadConsumes (remaining self.old) (remaining self.new) result buf.new }
        ensures failed { OnErr result (has_failed self.new) }
        ensures asked { asks self.new ≤ asks self.old + 1 };

    /// All that is left, where it lies in memory: then nothing of it has to be read.
    fn in_memory(&self) -> Option<&[u8]>
        ensures { IfSome result (λ bytes. remaining self.now ≡ Some bytes.now) }
    {
        None
    }
}

/// Any reader. Nothing is known of its failures.
#[derive(Drop)]
pub struct Plain<R> {
    pub inner: R,
}

impl<R: Read> Source for Plain<R> {
    ghost remaining = { λ s. R.remaining s.inner };

    ghost has_failed = { λ _. Unit {0} };

    ghost asks = { λ _. 0 };

    fn read(&mut self, buf: &mut [u8]) -> io::Result<usize> {
        self.inner.read(buf)
    }
}

/// A script in memory, which never fails.
#[derive(Drop)]
pub struct Script<'a> {
    pub rest: &'a [u8],
}

impl Source for Script<'_> {
    ghost remaining = { λ s. Some s.rest.now };

    ghost has_failed = { λ _. ⊥ };

    ghost asks = { λ _. 0 };

    fn read(&mut self, buf: &mut [u8]) -> io::Result<usize> {
        Read::read(&mut self.rest, buf)
    }

    fn in_memory(&self) -> Option<&[u8]> {
        Some(self.rest)
    }
}

/// Why no script was read.
#[derive(Clone, Copy, Debug, PartialEq, Eq)]
pub enum ReadFault {
    Failed,
    TooLong,
    NoMemory,
}

impl From<AllocError> for ReadFault {
    ghost from_gives = { λ _ e. e ≡ NoMemory };

    fn from(_e: AllocError) -> ReadFault {
        ReadFault::NoMemory
    }
}

/// All that a source has left, at most `SCRIPT_LIMIT` bytes.
pub fn read_script<S: Source>(alloc: Global, reader: &mut S) -> Result<Vec<u8>, ReadFault>
    ensures whole { IfOk result (λ script. IfSome (S.remaining reader.old)
        (λ bytes. script.items ≡ bytes)) }
    ensures limit { IfOk result (λ script. length script.items ≤ SCRIPT_LIMIT) }
    ensures too_long { result ≡ Err ReadFault.TooLong
        → IfSome (S.remaining reader.old) (λ bytes. SCRIPT_LIMIT < length bytes) }
    ensures failed { result ≡ Err ReadFault.Failed → S.has_failed reader.new }
    ensures asked { S.asks reader.new ≤ S.asks reader.old + ASKS }
{
    let mut script = Vec::new(alloc);
    let mut piece = [0u8; 4096];
    for _ in 0..ASKS {
        let count = match reader.read(&mut piece) {
            Ok(count) => count,
            Err(_) => return Err(ReadFault::Failed),
        };
        if count == 0 {
            return Ok(script);
        }
        if count > SCRIPT_LIMIT - script.len() {
            return Err(ReadFault::TooLong);
        }
        script.extend_from_slice(&piece[..count])?;
    }
    Err(ReadFault::TooLong)
}

/// What takes a transcript.
pub trait Sink {
    // the bytes that it holds, where they are known
    ghost contents: { Self → Option (List ℕ) };
    // a write to it failed, or took no byte
    ghost has_refused: { Self → Type 0 };

    fn write(&mut self, buf: &[u8]) -> io::Result<usize>
        ensures bound { WritesAtMost result buf.now }
        ensures bytes { WriteAppends (contents self.old) (contents self.new) result buf.now }
        ensures failed { OnErr result (has_refused self.new) }
        ensures no_byte { result ≡ Ok 0 → 0 < length buf.now → has_refused self.new }
        ensures taken { IfOk result
            (λ count. 0 < count → has_refused self.new → has_refused self.old) };

    /// Whether to tell now how far the run is.
    fn is_due(&mut self) -> bool
        ensures contents { contents self.new ≡ contents self.old }
        ensures taken { has_refused self.new → has_refused self.old }
    {
        false
    }

    /// How far the run is: so many entries are done, and so many frames wait. Nothing of it goes
    /// where the transcript goes.
    fn tell(&mut self, _done: usize, _waiting: usize)
        ensures contents { contents self.new ≡ contents self.old }
        ensures taken { has_refused self.new → has_refused self.old }
    {}

    /// A run has stopped, and these frames wait. Nothing of it goes where the transcript goes.
    fn tell_waiting(&mut self, _waiting: Vec<FrameName>)
        ensures contents { contents self.new ≡ contents self.old }
        ensures taken { has_refused self.new → has_refused self.old }
    {}
}

/// Any writer. Nothing is known of its refusals.
#[derive(Drop)]
pub struct Out<W> {
    pub inner: W,
}

impl<W: Write> Sink for Out<W> {
    ghost contents = { λ s. W.contents s.inner };

    ghost has_refused = { λ _. Unit {0} };

    fn write(&mut self, buf: &[u8]) -> io::Result<usize> {
        self.inner.write(buf)
    }
}

/// The writer failed, or took no byte.
#[derive(Clone, Copy, Debug, PartialEq, Eq)]
pub struct WriteFault;

/// Writes all of a text. At an error the sink refused once, and got a prefix of it.
pub fn write_text<S: Sink>(sink: &mut S, text: &[u8]) -> Result<(), WriteFault>
    ensures ok { OnOk result (Appends (S.contents sink.old) (S.contents sink.new) text.now) }
    ensures err { OnErr result (AppendsFront (S.contents sink.old) (S.contents sink.new) text.now) }
    ensures taken { OnOk result (S.has_refused sink.new → S.has_refused sink.old) }
    ensures refused { OnErr result (S.has_refused sink.new) }
{
    let mut at = 0;
    while at < text.len() {
        match sink.write(&text[at..]) {
            Ok(0) => return Err(WriteFault),
            Ok(count) => at += count,
            Err(_) => return Err(WriteFault),
        }
    }
    Ok(())
}
