// The moves, made on a state that is lent.
#![tactic(auto)]

ghost use Rattle.std.specs.Prelude.{◌≡◌, true, false, ◌<◌, get_or};
ghost use Rattle.engine_targets.specs.Makes.{Opens, Enters, Exits, Receives, Moves, MakesOrLeaves};
ghost use Rattle.engine_state_arrays.specs.Lent.{kinds_in, starts_in, own_state, LentReady};

use engine_settling::{received, settle, spend};
use engine_state_arrays::{ACTS, AIMS, NAMED, StateArrays, TOP, bodies, from_arrays, to_arrays};
use engine_states::{ENTER, OPEN, RECEIVE};
use engine_targets::{locate, targets};

// OPEN: the part t goes from the body of p, in which the actor stands, and its body stays.
fn open_part(script: &[u32], lent: &mut StateArrays, p: usize, a: usize, t: usize)
    requires { (p < 65) × (a < 64) × (t < 64) × LentReady script.now lent.old.sets lent.old.numbers }
    ensures lends { LentReady script.now lent.new.sets lent.new.numbers }
    ensures table { (kinds_in lent.new.numbers ≡ kinds_in lent.old.numbers) × (starts_in lent.new.numbers ≡ starts_in lent.old.numbers) }
    ensures made { Opens script.now (kinds_in lent.old.numbers) (starts_in lent.old.numbers) (own_state lent.old.sets lent.old.numbers) (own_state lent.new.sets lent.new.numbers) p a t }
{
    let here = lent.sets[p];
    let inside = lent.sets[t];
    lent.sets[p] = base_sets::union(inside, base_sets::without(here, t));
    spend(script, lent, a);
    settle(&mut lent.sets, &lent.numbers)
}

// IN and EXIT: the part p goes from one body into another.
fn carry(script: &[u32], lent: &mut StateArrays, p: usize, from: usize, into: usize, a: usize)
    requires { (p < 64) × (from < 65) × (into < 65) × (a < 64) × LentReady script.now lent.old.sets lent.old.numbers }
    ensures lends { LentReady script.now lent.new.sets lent.new.numbers }
    ensures table { (kinds_in lent.new.numbers ≡ kinds_in lent.old.numbers) × (starts_in lent.new.numbers ≡ starts_in lent.old.numbers) }
    ensures entered { Enters script.now (kinds_in lent.old.numbers) (starts_in lent.old.numbers) (own_state lent.old.sets lent.old.numbers) (own_state lent.new.sets lent.new.numbers) p from a into }
    ensures left { Exits script.now (kinds_in lent.old.numbers) (starts_in lent.old.numbers) (own_state lent.old.sets lent.old.numbers) (own_state lent.new.sets lent.new.numbers) p from into a }
{
    let here = lent.sets[from];
    lent.sets[from] = base_sets::without(here, p);
    let there = lent.sets[into];
    lent.sets[into] = base_sets::with(there, p);
    spend(script, lent, a);
    settle(&mut lent.sets, &lent.numbers)
}

// A receipt: the receipt a and the output t go from the body of p.
fn receive_part(script: &[u32], lent: &mut StateArrays, p: usize, a: usize, t: usize)
    requires { (p < 65) × (a < 64) × (t < 64) × LentReady script.now lent.old.sets lent.old.numbers }
    ensures lends { LentReady script.now lent.new.sets lent.new.numbers }
    ensures table { (kinds_in lent.new.numbers ≡ kinds_in lent.old.numbers) × (starts_in lent.new.numbers ≡ starts_in lent.old.numbers) }
    ensures made { Receives script.now (kinds_in lent.old.numbers) (starts_in lent.old.numbers) (own_state lent.old.sets lent.old.numbers) (own_state lent.new.sets lent.new.numbers) p a t }
{
    let top = lent.sets[TOP];
    let b = from_arrays(lent, top);
    let s = received(script, &b.kinds, &b.starts, b.state, p, a, t);
    *lent = to_arrays(b.kinds, b.starts, s);
    settle(&mut lent.sets, &lent.numbers)
}

// IN, or where it is none EXIT, of the actor a in the body of p.
fn carry_around(
    script: &[u32],
    lent: &mut StateArrays,
    homes: &[usize; 64],
    p: usize,
    a: usize,
    t: usize,
    enters: bool,
)
    requires { (p < 64) × (a < 64) × (t < 64) × LentReady script.now lent.old.sets lent.old.numbers }
    ensures lends { LentReady script.now lent.new.sets lent.new.numbers }
    ensures table { (kinds_in lent.new.numbers ≡ kinds_in lent.old.numbers) × (starts_in lent.new.numbers ≡ starts_in lent.old.numbers) }
    ensures entered { enters ≡ true → get_or homes.now p 0 < 65 → Enters script.now (kinds_in lent.old.numbers) (starts_in lent.old.numbers) (own_state lent.old.sets lent.old.numbers) (own_state lent.new.sets lent.new.numbers) p (get_or homes.now p 0) a t }
    ensures left { enters ≡ false → get_or homes.now t 0 < 65 → Exits script.now (kinds_in lent.old.numbers) (starts_in lent.old.numbers) (own_state lent.old.sets lent.old.numbers) (own_state lent.new.sets lent.new.numbers) p t (get_or homes.now t 0) a }
{
    if enters {
        let q = homes[p];
        if q > TOP {
            return;
        }
        return carry(script, lent, p, q, t, a);
    }
    let q = homes[t];
    if q > TOP {
        return;
    }
    carry(script, lent, p, t, q, a)
}

// The move of the actor a to t, one of its targets, homes being those of all parts.
pub fn make_move(script: &[u32], lent: &mut StateArrays, homes: &[usize; 64], a: usize, t: usize)
    requires { (a < 64) × (t < 64) × LentReady script.now lent.old.sets lent.old.numbers }
    ensures lends { LentReady script.now lent.new.sets lent.new.numbers }
    ensures table { (kinds_in lent.new.numbers ≡ kinds_in lent.old.numbers) × (starts_in lent.new.numbers ≡ starts_in lent.old.numbers) }
    ensures made { Moves script.now (kinds_in lent.old.numbers) (starts_in lent.old.numbers) (own_state lent.old.sets lent.old.numbers) (own_state lent.new.sets lent.new.numbers) (λ i. get_or homes.now i 0) a t }
{
    let p = homes[a];
    if p > TOP {
        return;
    }
    let act = lent.numbers[ACTS + a];
    if act == OPEN as u32 {
        return open_part(script, lent, p, a, t);
    }
    if act == RECEIVE as u32 {
        return receive_part(script, lent, p, a, t);
    }
    if p == TOP {
        return;
    }
    carry_around(script, lent, homes, p, a, t, act == ENTER as u32)
}

// The move (a, t) where the machine can make it, and whether it can.
pub fn make_if_possible(script: &[u32], lent: &mut StateArrays, a: usize, t: usize) -> bool
    requires { (a < 64) × (t < 64) × LentReady script.now lent.old.sets lent.old.numbers }
    ensures lends { LentReady script.now lent.new.sets lent.new.numbers }
    ensures table { (kinds_in lent.new.numbers ≡ kinds_in lent.old.numbers) × (starts_in lent.new.numbers ≡ starts_in lent.old.numbers) }
    ensures made { MakesOrLeaves script.now (kinds_in lent.old.numbers) (starts_in lent.old.numbers) (own_state lent.old.sets lent.old.numbers) (own_state lent.new.sets lent.new.numbers) result a t }
{
    let top = lent.sets[TOP];
    let kids = bodies(&lent.sets, top);
    let homes = locate(&kids, lent.sets[NAMED]);
    let aims = lent.sets[AIMS + a];
    let aimed = targets(&kids, lent.numbers[ACTS + a], aims, &homes, a);
    if base_sets::has(aimed, t) {
        make_move(script, lent, &homes, a, t);
        return true;
    }
    false
}
