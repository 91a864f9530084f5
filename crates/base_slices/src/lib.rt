// Parts of slices, words as indices, and sums that stop at 2^32 - 1: what the other layers share.
#![tactic(auto)]

ghost use Rattle.std.specs.Prelude.{◌≡◌, ◌+◌, take, drop};
ghost use Rattle.base_slices.specs.Sums.{capped};

// A word as an index. The library has no conversion for it that can't fail, since an index may have fewer digits elsewhere.
pub fn wide(x: u32) -> usize
    ensures { result ≡ x }
{
    x as usize
}

// The sum, at most 2^32 - 1.
#[tactic(auto, unfolding(crate::specs::Sums::capped))]
pub fn sum(a: u32, b: u32) -> u32
    ensures { result ≡ capped (a + b) }
{
    a.saturating_add(b)
}

// The words at the start of a slice, or all of it where there are no more.
pub fn head(s: &[u32], n: usize) -> &[u32]
    ensures { result.now ≡ take n s.now }
{
    &s[..n.min(s.len())]
}

// What stands from an index on, nothing where there is not so much.
pub fn tail(s: &[u32], at: usize) -> &[u32]
    ensures { result.now ≡ drop at s.now }
{
    &s[at.min(s.len())..]
}
