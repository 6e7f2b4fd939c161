//! What holds of the order of triads, and of counts under incarnations.
ghost use Rattle.std.specs.Prelude.{◌≡◌, ◌<◌, ◌+◌, ◌*◌, ℕ};
ghost use Rattle.std.specs.Cmp.{IsTotalOrder};
ghost use Rattle.std.specs.declared.cmp.Ordering.TheVariants.{Equal};
ghost use Rattle.cip_base.specs.Counts.{count_of, counts_given, incarnation, reborn};
ghost use Rattle.cip_base.specs.declared.triad.Triad.{Triad as Name};
ghost use Rattle.cip_base.specs.Triads.{triad_cmp};

use crate::Triad;
use std::cmp::Ordering;

/// Triads are compared by connection serial number, then by vendor, then by the originator's serial
/// number.
pub fn triad_order(left: &Triad, right: &Triad) -> Ordering
    ensures { result ≡ triad_cmp left.now right.now }
{
    left.cmp(right)
}

/// The order is total, and no two triads are equal in it.
pub fn triads_are_ordered()
    ensures total { IsTotalOrder triad_cmp }
    ensures told_apart { (a b : Name) → triad_cmp a b ≡ Equal → a ≡ b }
{}

/// What comes next is one past the counts of its incarnation that are given. The id or number that
/// is then given has the count after them, under that incarnation. A reset goes up to the next
/// incarnation, of which no count is given.
pub fn counts_rise_under_incarnations()
    ensures halves { (n : ℕ) → 0 < n → n ≡ 65536 * incarnation n + counts_given n + 1 }
    ensures low { (n : ℕ) → counts_given n < 65536 }
    ensures count { (n : ℕ) → 0 < n → counts_given n < 65535 → count_of n ≡ counts_given n + 1 }
    ensures above { (n : ℕ) → n < reborn n }
    ensures next { (n : ℕ) → incarnation (reborn n) ≡ incarnation n + 1 }
    ensures none_given { (n : ℕ) → counts_given (reborn n) ≡ 0 }
{}
