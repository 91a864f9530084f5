// Where the parts of a closure stand, and the targets of an actor's moves, by the part sets and what is kept of the
// actor.
#![tactic(auto)]

ghost use Rattle.std.specs.Prelude.{◌≡◌, ℕ, ◌<◌, length, get_or, replicate};
ghost use Rattle.base_sets.specs.Sets.{members, elem};
ghost use Rattle.read_scripts.specs.Represents.{body_in};
ghost use Rattle.engine_states.specs.Searches.{LocatesBy, Located};
ghost use Rattle.engine_targets.specs.Targets.{is_within, is_beside, is_around, TargetsOf};

// Writes the homes of the parts of left, which stand in the body of the part at, and of those in the bodies of the named
// ambients among them, at any depth.
fn locate_below(
    found: &mut [usize; 64],
    kids: &[u64; 65],
    named: u64,
    left: u64,
    at: usize,
    fuel: usize,
)
    requires { (length found.old ≡ 64) × (at < 65) }
    ensures kept { length found.new ≡ 64 }
    ensures located { LocatesBy (members named) (body_in kids.now) (members left) at fuel (λ i. get_or found.old i 0) (λ i. get_or found.new i 0) }
{
    if left == 0 || fuel == 0 {
        return;
    }
    let i = base_sets::first(left);
    let others = base_sets::rest(left);
    found[i] = at;
    if base_sets::has(named, i) {
        locate_below(found, kids, named, kids[i], i, fuel - 1);
    }
    locate_below(found, kids, named, others, at, fuel - 1)
}

// For every part the part in whose body it stands, put into an array that has 65 for each: 64 for the top, 65 where there is
// none, or an ambient around it has no name. These are numbers and no Option: Located says so of them.
pub fn put_homes(homes: &mut [usize; 64], kids: &[u64; 65], named: u64)
    requires { homes.old ≡ replicate 64 65 }
    ensures { Located (members named) (body_in kids.now) (λ i. get_or homes.new i 0) }
{
    locate_below(homes, kids, named, kids[64], 64, 64);
}

// The same as an array of its own.
pub fn locate(kids: &[u64; 65], named: u64) -> [usize; 64]
    ensures { Located (members named) (body_in kids.now) (λ i. get_or result i 0) }
{
    let mut found: [usize; 64] = [65; 64];
    put_homes(&mut found, kids, named);
    found
}

// Those of aim in the body of the part p.
fn aimed_within(kids: &[u64; 65], aim: u64, p: usize) -> u64
    ensures { (t : ℕ) → elem t (members result) ≡ is_within (body_in kids.now) p t (elem t (members aim)) }
{
    if p >= 65 {
        return 0;
    }
    base_sets::intersection(aim, kids[p])
}

// Those of aim in the body in which the part p stands, but for p.
fn aimed_beside(kids: &[u64; 65], aim: u64, homes: &[usize; 64], p: usize) -> u64
    ensures { (t : ℕ) → elem t (members result) ≡ is_beside (body_in kids.now) p (get_or homes.now p 0) t (elem t (members aim)) }
{
    if p >= 64 {
        return 0;
    }
    base_sets::without(aimed_within(kids, aim, homes[p]), p)
}

// The part in whose body the part p stands, if it is in aim.
fn aimed_around(aim: u64, homes: &[usize; 64], p: usize) -> u64
    ensures { (t : ℕ) → elem t (members result) ≡ is_around p (get_or homes.now p 0) t (elem t (members aim)) }
{
    if p >= 64 {
        return 0;
    }
    let q = homes[p];
    if q >= 64 {
        return 0;
    }
    base_sets::intersection(aim, base_sets::single(q))
}

// The targets of the actor a's moves, by where it stands and its act, as it is lent: 1 OPEN, 2 IN, 3 EXIT, 4 it receives.
pub fn targets(kids: &[u64; 65], act: u32, aim: u64, homes: &[usize; 64], a: usize) -> u64
    requires { a < 64 }
    ensures { TargetsOf (body_in kids.now) act (members aim) (λ i. get_or homes.now i 0) a (members result) }
{
    let p = homes[a];
    match act {
        1 => aimed_within(kids, aim, p),
        2 => aimed_beside(kids, aim, homes, p),
        3 => aimed_around(aim, homes, p),
        4 => aimed_within(kids, aim, p),
        _ => 0,
    }
}
