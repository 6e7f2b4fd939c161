//! How far the reading is, told at a terminal.
ghost use Rattle.std.specs.Prelude.{◌≤◌, IfSome};

use std::fs::metadata;
use std::io::IsTerminal;
use std::time::Instant;

// How long the reading goes on before it is first told, and from one telling to the next, in
// milliseconds.
const FIRST: u64 = 1_000;

const AGAIN: u64 = 100;

// How many hundredths of a whole were read, where there is one.
fn share_of(read: u64, whole: Option<u64>) -> Option<u64>
    ensures { IfSome result (λ share. share ≤ 100) }
{
    let whole = whole?;
    if read < whole {
        return Some((u128::from(read) * 100 / u128::from(whole)) as u64);
    }
    Some(100)
}

// How many bytes stand on the standard input, where it is a file.
fn input_size(rt: &HostRuntime) -> Option<u64> {
    let found = metadata(rt, "/dev/stdin").ok()?;
    if found.is_file() {
        return Some(found.len());
    }
    None
}

/// Tells how far the reading is once it takes more than a second, where the standard error is a
/// terminal and the transcript is not typed at one, and nothing elsewhere.
#[derive(Drop)]
pub struct Terminal<'a> {
    rt: &'a HostRuntime,
    // when the reading began, where there is a terminal
    begun: Option<Instant>,
    // how many bytes there are to read, where that is known
    whole: Option<u64>,
    due: u64,
    is_shown: bool,
}

impl Terminal<'_> {
    /// The terminal of a reading that begins now.
    pub fn new(rt: &HostRuntime) -> Terminal<'_> {
        let (begun, whole) = if rt.stderr().is_terminal() && !rt.stdin().is_terminal() {
            (Instant::now(rt).ok(), input_size(rt))
        } else {
            (None, None)
        };
        Terminal {
            rt,
            begun,
            whole,
            due: FIRST,
            is_shown: false,
        }
    }

    fn elapsed(&self) -> Option<u64> {
        let begun = self.begun?;
        let elapsed = begun.elapsed(self.rt).ok()?;
        Some(u64::try_from(elapsed.as_millis()).unwrap_or(u64::MAX))
    }

    fn show(&mut self, lines: usize, read: u64) {
        let _ = match share_of(read, self.whole) {
            Some(share) => eprint!(self.rt; "\r{lines} lines read, {share}%\x1b[K"),
            None => eprint!(self.rt; "\r{lines} lines read\x1b[K"),
        };
        self.is_shown = true;
    }

    /// So many lines were read, and so many bytes.
    pub fn tell(&mut self, lines: usize, read: u64) {
        if let Some(elapsed) = self.elapsed() {
            if self.due <= elapsed {
                self.show(lines, read);
                self.due = elapsed.saturating_add(AGAIN);
            }
        }
    }

    /// Where what is shown goes to the same terminal, it begins where the line stood.
    pub fn make_room(&mut self) {
        if self.is_shown && self.rt.stdout().is_terminal() {
            self.clear();
        }
    }

    /// Takes the line away.
    pub fn clear(&mut self) {
        if self.is_shown {
            let _ = eprint!(self.rt; "\r\x1b[K");
            self.is_shown = false;
        }
    }
}
