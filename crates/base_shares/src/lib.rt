// The shares of a part set: its subsets, in the order in which BESIDE tries them.
#![tactic(auto)]

ghost use Rattle.std.specs.Prelude.{◌≡◌, ℕ, suc, ◌^◌, ◌<◌, [], length};
ghost use Rattle.base_sets.specs.Sets.{members};
ghost use Rattle.base_shares.specs.Shares.{picked};

// The share of m that comes after the share s, in rising order of the numbers that hold them; the
// last share is m itself, and the empty one comes after it.
pub fn next_share(m: u64, s: u64) -> u64
    ensures next { (k : ℕ) → suc k < 2 ^ length (members m) → members s ≡ picked (members m) k → members result ≡ picked (members m) (suc k) }
    ensures around { members s ≡ members m → members result ≡ [] }
{
    s.wrapping_sub(m) & m
}
