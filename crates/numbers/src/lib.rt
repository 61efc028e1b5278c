// A number held within two ends, one entry of an array, the bits of a byte, and laws that the crates above cite.
#![tactic(auto)]

pub mod bits;
pub mod entries;

ghost use Rattle.std.specs.Prelude.{◌≡◌};
ghost use Rattle.std.specs.Ordering.{ord_max, ord_min};

// `x` held within `low..high`; where the ends cross, `high`. On bytes and words this is `clamp_to` (proofs/Clamped).
pub fn clamp<T: Ord + Copy + Drop>(x: T, low: T, high: T) -> T
    ensures { result ≡ ord_min T.cmp (ord_max T.cmp x low) high }
{
    x.max(low).min(high)
}
