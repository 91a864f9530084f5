// Copies between arrays, and small numbers as bytes: a slice is put into a stretch of an array, and a stretch is read
// out again.
#![tactic(auto)]

ghost use Rattle.std.specs.Prelude.{◌≡◌, ℕ, ◌+◌, ◌≤◌, ◌<◌, length, get_or};
ghost use Rattle.base_arrays.specs.Stretches.{stretch_or, Put, PutAsked, Widened};

// Writes the elements of from at the index at.
pub fn put<T: Copy, const N: usize>(to: &mut [T; N], at: usize, from: &[T])
    requires { PutAsked N at from.now to.old }
    ensures kept { length to.new ≡ N }
    ensures put { Put at from.now to.old to.new }
{
    let all = &mut to[..];
    all[at..at + from.len()].copy_from_slice(from);
}

// The M elements from the index at on.
#[tactic(auto, using(crate::proofs::Copying::stretch_is))]
pub fn stretch<T: Copy, const N: usize, const M: usize>(from: &[T; N], at: usize) -> [T; M]
    requires { at + M ≤ N }
    ensures { (d : T) → result ≡ stretch_or d at M from.now }
{
    *from.as_slice()[at..].first_chunk().unwrap()
}

// Numbers below 256 as bytes. No `map` here and below: it keeps its items as options on the way, and a move took three times as long.
pub fn narrow(from: [u32; 64]) -> [u8; 64]
    ensures { ((i : ℕ) → i < 64 → get_or from i 0 < 256) → result ≡ from }
{
    let mut r = [0; 64];
    for i in 0..64 {
        r[i] = (from[i] % 256) as u8;
    }
    r
}

// Bytes as numbers.
pub fn widen(from: [u8; 64]) -> [u32; 64]
    ensures { Widened from result }
{
    let mut r = [0; 64];
    for i in 0..64 {
        r[i] = u32::from(from[i]);
    }
    r
}
