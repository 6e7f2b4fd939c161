//! The two halves of connection ids and request numbers: an incarnation above a count.
ghost use Rattle.std.specs.Prelude.{◌≡◌, ◌<◌, ◌≤◌, ◌^◌};
ghost use Rattle.cip_base.specs.Counts as counts;

use crate::limits::COUNTS;

/// The count of an id or number: its low 16 bits.
pub fn count_of(number: u32) -> u32
    ensures { result ≡ counts.count_of number }
{
    number % COUNTS as u32
}

/// How many counts of its incarnation are given where `next` comes next: it is one past the last
/// that was given.
pub fn counts_given(next: u64) -> u64
    requires { 0 < next }
    ensures { result ≡ counts.counts_given next }
{
    (next - 1) % COUNTS
}

/// The incarnation in which `next` comes next: the high 16 bits of the number before it.
pub fn incarnation(next: u64) -> u64
    requires { 0 < next }
    ensures { result ≡ counts.incarnation next }
{
    (next - 1) / COUNTS
}

/// What comes next after a reset: count 1 of the incarnation after that of `next`.
pub fn reborn(next: u64) -> u64
    requires some { 0 < next }
    requires last { next ≤ 2 ^ 32 }
    ensures { result ≡ counts.reborn next }
{
    COUNTS * (incarnation(next) + 1) + 1
}
