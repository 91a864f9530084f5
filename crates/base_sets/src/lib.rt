// Part sets: sets of numbers below 64, each held in the digits of a u64, where number i is in the set if digit i is 1.
// A contract speaks of a set as the list of its members, in rising order.
#![tactic(auto)]

ghost use Rattle.std.specs.Prelude.{◌≡◌, cond, ◌<◌, length};
ghost use mathlib.Core.List.{[], ◌∷◌, tail};
ghost use Rattle.base_sets.specs.Sets.{members, elem, inserted, removed, joined, in_both, but, head_or, is_none, is_one};

// The set with no member.
pub fn empty() -> u64
    ensures { members result ≡ [] }
{
    0
}

// The set whose only member is i.
pub fn single(i: usize) -> u64
    requires { i < 64 }
    ensures { members result ≡ i ∷ [] }
{
    1 << i
}

// Whether i is in m.
pub fn has(m: u64, i: usize) -> bool
    requires { i < 64 }
    ensures { result ≡ elem i (members m) }
{
    (m >> i) % 2 == 1
}

// m and i.
pub fn with(m: u64, i: usize) -> u64
    requires { i < 64 }
    ensures { members result ≡ inserted i (members m) }
{
    m | (1 << i)
}

// m, and i where that is so.
pub fn with_if(m: u64, i: usize, so: bool) -> u64
    requires { i < 64 }
    ensures { members result ≡ cond so (inserted i (members m)) (members m) }
{
    if so { with(m, i) } else { m }
}

// m without i.
pub fn without(m: u64, i: usize) -> u64
    requires { i < 64 }
    ensures { members result ≡ removed i (members m) }
{
    m & !(1 << i)
}

// The members of a and those of b.
pub fn union(a: u64, b: u64) -> u64
    ensures { members result ≡ joined (members a) (members b) }
{
    a | b
}

// The members of a that are in b.
pub fn intersection(a: u64, b: u64) -> u64
    ensures { members result ≡ in_both (members a) (members b) }
{
    a & b
}

// The members of a that are not in b.
pub fn difference(a: u64, b: u64) -> u64
    ensures { members result ≡ but (members a) (members b) }
{
    a & !b
}

pub fn is_empty(m: u64) -> bool
    ensures { result ≡ is_none (members m) }
{
    m == 0
}

// Whether m has just one member.
pub fn is_single(m: u64) -> bool
    ensures { result ≡ is_one (members m) }
{
    m.count_ones() == 1
}

// How many members m has.
pub fn count(m: u64) -> usize
    ensures { result ≡ length (members m) }
{
    m.count_ones() as usize
}

// The least member of m, and 64 where m is empty. It answers a number and no Option: document 01 asks for trailing zeros, which
// are that number, and who calls it has asked for an empty set.
pub fn first(m: u64) -> usize
    ensures { result ≡ head_or 64 (members m) }
{
    m.trailing_zeros() as usize
}

// m without its least member.
pub fn rest(m: u64) -> u64
    requires { members m ≡ [] → ⊥ }
    ensures { members result ≡ tail (members m) }
{
    m & (m - 1)
}
