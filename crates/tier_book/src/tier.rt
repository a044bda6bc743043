//! What is taken of each tier.

ghost use Rattle.std.specs.Prelude.{◌≡◌, ◌+◌, ◌-◌, ◌≤◌, ◌<◌, length, get_or, slice_set};

use fs_model::numbers::TierNo;

/// Takes bytes of a tier that has them free.
pub(crate) fn take_bytes(taken: &mut [u64], sizes: &[u64], tier: TierNo, n: u64)
    requires tier { tier < length sizes.now }
    requires long { length taken.old ≡ length sizes.now }
    requires fits { get_or taken.old tier 0 + n ≤ get_or sizes.now tier 0 }
    ensures { taken.new ≡ slice_set taken.old tier (get_or taken.old tier 0 + n) }
{
    let tier = tier.0 as usize;
    let left = sizes[tier] - taken[tier];
    prove!(n <= left);
    taken[tier] += n;
}

/// Gives bytes of a tier back.
pub(crate) fn give_bytes(taken: &mut [u64], tier: TierNo, n: u64)
    requires tier { tier < length taken.old }
    requires taken { n ≤ get_or taken.old tier 0 }
    ensures { taken.new ≡ slice_set taken.old tier (get_or taken.old tier 0 - n) }
{
    taken[tier.0 as usize] -= n;
}
