//! A chart that is long is told.
ghost use Rattle.std.specs.Prelude.{◌≡◌};
ghost use Rattle.cipview.specs.Lengths.{is_long};

use std::fmt;

// The most bytes of a chart of which nothing is told: much longer ones open slowly.
const LIMIT: u64 = 16_000_000;

// Whether a chart of so many bytes is told.
fn is_long(bytes: u64) -> bool
    ensures { result ≡ is_long bytes }
{
    LIMIT < bytes
}

// The digits of a number, three by three.
fn threes(number: u64) -> [u64; 7] {
    [
        number / 1_000_000_000_000_000_000,
        number / 1_000_000_000_000_000 % 1_000,
        number / 1_000_000_000_000 % 1_000,
        number / 1_000_000_000 % 1_000,
        number / 1_000_000 % 1_000,
        number / 1_000 % 1_000,
        number % 1_000,
    ]
}

// A number with commas, as `16,000,000`.
#[derive(Clone, Copy)]
struct Grouped(u64);

impl fmt::Display for Grouped {
    fn fmt<W: fmt::Write>(&self, f: &mut fmt::Formatter<W>) -> fmt::Result {
        let mut is_begun = false;
        for three in threes(self.0).iter() {
            if is_begun {
                write!(f, ",{three:03}")?;
            } else if 0 < *three {
                write!(f, "{three}")?;
                is_begun = true;
            }
        }
        if !is_begun {
            f.write_str("0")?;
        }
        Ok(())
    }
}

/// Tells that a chart of so many bytes went out, where they are many.
pub fn tell_length(rt: &HostRuntime, bytes: u64) {
    if is_long(bytes) {
        let number = Grouped(bytes);
        let _ = eprintln!(rt;
            "cipview: the chart has {number} bytes: --from and --to show a part of it"
        );
    }
}
