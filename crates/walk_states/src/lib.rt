// What the words of a rule ask of the process that a state represents (document 01, "The rule and its walk"), a state
// being lent as the arrays that hold it, and made only where a move or PLACED changes it.
#![tactic(auto)]

ghost use Rattle.std.specs.Prelude.{◌≡◌, ℕ, ◌+◌, ◌-◌, ◌≤◌, ◌<◌, length, get_or, Some};
ghost use Rattle.read_messages.specs.Message.{name as called};
ghost use Rattle.base_sets.specs.Sets.{members};
ghost use Rattle.read_scripts.specs.Tree.{ambient, close, part, times_in};
ghost use Rattle.read_scripts.specs.Represents.{body_in};
ghost use Rattle.theory_machine.specs.Moves.{same_name};
ghost use Rattle.theory_closures.specs.Closure.{Closure};
ghost use Rattle.engine_states.specs.Seen.{name_in};
ghost use Rattle.engine_states.specs.Searches.{Located};
ghost use Rattle.engine_states.specs.Represents.{bound_in, Represents};
ghost use Rattle.engine_targets.specs.Targets.{TargetsOf};
ghost use Rattle.engine_targets.specs.Makes.{Moves};
ghost use Rattle.base_arrays.specs.Stretches.{stretch};
ghost use Rattle.engine_state_arrays.specs.Lent.{Small, kinds_in, starts_in, state_in};
ghost use Rattle.walk_states.specs.declared.Step.TheVariants.{Move, Place};
ghost use Rattle.walk_stages.specs.Order.{pairs_behind, TurnWithin, Turns};
ghost use Rattle.walk_stages.specs.Visits.{Lendable};

use engine_moves::make_move;
use engine_settling::place_part;
use engine_state_arrays::{
    ACTS, AIMS, NAMED, NAMES, StateArrays, TOP, bodies, from_arrays, to_arrays,
};
use engine_states::State;
use engine_targets::{put_homes, targets};
use walk_stages::{Limits, PROGRAM};

// What a walk never changes: the rule's words and table as one array, the script, and the call's numbers.
#[derive(Clone, Copy)]
pub struct Walk<'a> {
    pub program: &'a [u32; PROGRAM],
    pub script: &'a [u32],
    pub limits: Limits,
}

// Where a visit is made: the word's index, the set of the top parts, the SOMEs around, and the depths left.
#[derive(Clone, Copy)]
pub struct Spot {
    pub at: usize,
    pub top: u64,
    pub somes: usize,
    pub left: usize,
}

// The moves still to be tried: those of the outer number before `from` with the inner ones that are left, then those of the
// outer numbers from `from` on; none where none of the inner ones is left.
#[derive(Drop)]
pub struct Turn {
    pub from: usize,
    pub rest: u64,
}

// A state and its part table for lending, beside the set of its top parts.
#[derive(Drop)]
pub struct LentState {
    pub lent: StateArrays,
    pub top: u64,
}

// What changes a state: a move of an actor to a target, or a new part of that name around the top parts.
#[derive(Drop)]
pub enum Step {
    Move(usize, usize),
    Place(usize, u32),
}

// Whether the part i is an ambient of that name.
pub fn is_called(lent: &StateArrays, i: usize, name: u32) -> bool
    ensures { i < 64 → result ≡ same_name (Some name) (name_in (get_or lent.now.sets 129 0) (stretch 192 64 lent.now.numbers) i) }
{
    i < 64 && base_sets::has(lent.sets[NAMED], i) && lent.numbers[NAMES + i] == name
}

// The homes of all parts of the state that is lent; the targets of each actor below the limit are put into `found`, which is
// lent since to hand it up would cost a copy.
pub fn all_targets(lent: &StateArrays, top: u64, limit: usize, found: &mut [u64; 64]) -> [usize; 64]
    requires { (limit ≤ 64) × (length found.old ≡ 64) }
    ensures homes { Located (members (get_or lent.now.sets 129 0)) (body_in (state_in lent.now.sets lent.now.numbers top).kids) (λ i. get_or result i 0) }
    ensures targets { (a : ℕ) → a < limit → TargetsOf (body_in (state_in lent.now.sets lent.now.numbers top).kids) (get_or (state_in lent.now.sets lent.now.numbers top).notes.acts a 0) (members (get_or (state_in lent.now.sets lent.now.numbers top).notes.aims a 0)) (λ i. get_or result i 0) a (members (get_or found.new a 0)) }
{
    let kids = bodies(&lent.sets, top);
    let mut homes: [usize; 64] = [65; 64];
    put_homes(&mut homes, &kids, lent.sets[NAMED]);
    for a in 0..limit {
        let aims = lent.sets[AIMS + a];
        found[a] = targets(&kids, lent.numbers[ACTS + a], aims, &homes, a);
    }
    homes
}

// The turn behind the first move of the turn before `start` with the inner ones `left`; of all turns the first is behind 0 with none.
pub fn next_turn(inner: &[u64; 64], start: usize, left: u64, limit: usize) -> Turn
    requires { (limit ≤ 64) × TurnWithin limit start left }
    ensures { Turns inner.now limit result.from result.rest (pairs_behind inner.now limit start left) }
{
    let mut from = start;
    let mut rest = left;
    if rest != 0 {
        rest = base_sets::rest(rest);
    }
    // As a for loop each number that is passed over costs eight instructions in place of six: a walk of SOMETIME gets 1 % dearer.
    while from < limit {
        if rest != 0 {
            return Turn { from, rest };
        }
        rest = inner[from];
        from += 1;
    }
    Turn { from, rest }
}

// The state for lending.
pub fn as_arrays(kinds: [u8; 64], starts: [u32; 64], state: State) -> LentState
    requires { state.bindings.first ≤ 32 }
    ensures tables { (kinds_in result.lent.numbers ≡ kinds) × (starts_in result.lent.numbers ≡ starts) × Small result.lent.numbers × (length result.lent.sets ≡ 131) × (length result.lent.numbers ≡ 481) }
    ensures state { state_in result.lent.sets result.lent.numbers result.top ≡ state }
{
    let lent = to_arrays(kinds, starts, state);
    let top = lent.sets[TOP];
    LentState { lent, top }
}

// The top parts after the move of the actor a to its target t, which is made in the lent state, with top as its top parts.
fn after_move(
    script: &[u32],
    lent: &mut StateArrays,
    top: u64,
    homes: &[usize; 64],
    a: usize,
    t: usize,
) -> u64
    requires { (a < 64) × (t < 64) × Lendable script.now lent.old.sets lent.old.numbers top }
    ensures lends { Lendable script.now lent.new.sets lent.new.numbers result }
    ensures table { (kinds_in lent.new.numbers ≡ kinds_in lent.old.numbers) × (starts_in lent.new.numbers ≡ starts_in lent.old.numbers) }
    ensures made { Moves script.now (kinds_in lent.old.numbers) (starts_in lent.old.numbers) (state_in lent.old.sets lent.old.numbers top) (state_in lent.new.sets lent.new.numbers result) (λ i. get_or homes.now i 0) a t }
{
    lent.sets[TOP] = top;
    make_move(script, lent, homes, a, t);
    lent.sets[TOP]
}

// The top parts where top is the body of a new part i, an ambient of that name, which is made in the lent state.
fn place_within(script: &[u32], lent: &mut StateArrays, top: u64, i: usize, name: u32) -> u64
    requires { (i < 64) × (name < 536870912) × Lendable script.now lent.old.sets lent.old.numbers top }
    ensures lends { Lendable script.now lent.new.sets lent.new.numbers result }
    ensures bound { bound_in script.now (state_in lent.new.sets lent.new.numbers result) ≡ bound_in script.now (state_in lent.old.sets lent.old.numbers top) }
    ensures placed { (weight spent : ℕ) (b : Closure) → Represents script.now (kinds_in lent.old.numbers) (starts_in lent.old.numbers) weight spent (state_in lent.old.sets lent.old.numbers top) b → times_in i b ≡ 0 → weight < 64 → Represents script.now (kinds_in lent.new.numbers) (starts_in lent.new.numbers) (weight + 1) spent (state_in lent.new.sets lent.new.numbers result) (part i (ambient (called name)) b close) }
{
    let b = from_arrays(lent, top);
    let p = place_part(script, b.kinds, b.starts, b.state, i, name);
    let l = as_arrays(p.kinds, p.starts, p.state);
    *lent = l.lent;
    l.top
}

// The top parts after that step, which is made in the lent state, with top as its top parts. Moves and PLACED share it, so
// that it is not put into the frames of a deep walk; to hand up a state would cost copies of it.
pub fn next_state(
    script: &[u32],
    lent: &mut StateArrays,
    top: u64,
    homes: &[usize; 64],
    step: Step,
) -> u64
    requires { ((a t : ℕ) → step ≡ Move a t → (a < 64) × (t < 64)) × ((i n : ℕ) → step ≡ Place i n → (i < 64) × (n < 536870912)) × Lendable script.now lent.old.sets lent.old.numbers top }
    ensures lends { Lendable script.now lent.new.sets lent.new.numbers result }
    ensures made { (a t : ℕ) → step ≡ Move a t → (kinds_in lent.new.numbers ≡ kinds_in lent.old.numbers) × (starts_in lent.new.numbers ≡ starts_in lent.old.numbers) × Moves script.now (kinds_in lent.old.numbers) (starts_in lent.old.numbers) (state_in lent.old.sets lent.old.numbers top) (state_in lent.new.sets lent.new.numbers result) (λ i. get_or homes.now i 0) a t }
    ensures placed { (i n : ℕ) → step ≡ Place i n → (bound_in script.now (state_in lent.new.sets lent.new.numbers result) ≡ bound_in script.now (state_in lent.old.sets lent.old.numbers top)) × ((weight spent : ℕ) (b : Closure) → Represents script.now (kinds_in lent.old.numbers) (starts_in lent.old.numbers) weight spent (state_in lent.old.sets lent.old.numbers top) b → times_in i b ≡ 0 → weight < 64 → Represents script.now (kinds_in lent.new.numbers) (starts_in lent.new.numbers) (weight + 1) spent (state_in lent.new.sets lent.new.numbers result) (part i (ambient (called n)) b close)) }
{
    match step {
        Step::Move(a, t) => after_move(script, lent, top, homes, a, t),
        Step::Place(i, name) => place_within(script, lent, top, i, name),
    }
}
