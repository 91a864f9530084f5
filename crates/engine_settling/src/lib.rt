// What a move leaves of a state: an item is spent or a message received, and what has no items left is gone; the first
// state of a script, and the state inside a new ambient (PLACED).
#![tactic(auto)]

ghost use Rattle.std.specs.Prelude.{◌≡◌, List, [], ℕ, ◌+◌, ◌≤◌, ◌<◌, length, get_or, set};
ghost use Rattle.base_sets.specs.Sets.{members};
ghost use Rattle.read_messages.specs.Message.{name as named};
ghost use Rattle.read_scripts.specs.Tree.{ambient, close, part, parts, times_in};
ghost use Rattle.read_scripts.specs.Represents.{body_in, Tabled};
ghost use Rattle.read_scripts.specs.Script.{Script};
ghost use Rattle.engine_held_bindings.specs.Held.{bindings_of};
ghost use Rattle.theory_machine.specs.Moves.{first_of};
ghost use Rattle.theory_closures.specs.Closure.{Closure, view_under, settle_under, closure_of};
ghost use Rattle.engine_states.specs.Searches.{SettlesBy};
ghost use Rattle.engine_states.specs.Represents.{head_of, bound_in, Counted, Ready, Represents};
ghost use Rattle.engine_targets.specs.Makes.{Received};
ghost use Rattle.engine_state_arrays.specs.Lent.{kinds_in, starts_in, bindings_at, own_state, LentReady};

use base_arrays::stretch;
use base_slices::wide;
use engine_bindings::FIRST_NAME;
use engine_held_bindings::Bindings;
use engine_state_arrays::{
    ACTS, AIMS, BUSY, FIRST, NAMED, NAMES, NUMBERS, OFFSETS, SETS, STARTS, StateArrays, TOP,
    TabledState, bindings_from, from_arrays, to_arrays,
};
use engine_states::{NameTable, State, item_deed, noted, part_item};
use read_messages::First;
use read_scripts::{ACTION, AMBIENT};

// What becomes of the parts of left when they are settled: an action with no items left goes, and its body comes in its
// place; in the bodies of ambients too, which sets then holds. Where none of them is busy, nothing changes.
// The two arrays stand apart: lent as one, the contract would also have to say that the numbers stay, which is no plainer.
fn settle_below<'a, 'b>(
    sets: &'b mut [u64; SETS],
    numbers: &'a [u32; NUMBERS],
    busy: u64,
    left: u64,
    fuel: usize,
) -> u64
    requires { length sets.old ≡ 131 }
    ensures kept { length sets.new ≡ 131 }
    ensures others { (i : ℕ) → 64 ≤ i → get_or sets.new i 0 ≡ get_or sets.old i 0 }
    ensures settled { SettlesBy (members busy) numbers.now (body_in sets.old) (body_in sets.new) (members left) (members result) fuel }
{
    if base_sets::intersection(left, busy) == 0 {
        return left;
    }
    if fuel == 0 {
        return 0;
    }
    let i = base_sets::first(left);
    let others = base_sets::rest(left);
    let rest = settle_below(sets, numbers, busy, others, fuel - 1);
    if base_sets::has(busy, i) {
        let inside = sets[i];
        let s = settle_below(sets, numbers, busy, inside, fuel - 1);
        if numbers[i] == AMBIENT as u32 {
            sets[i] = s;
            return base_sets::with(rest, i);
        }
        return base_sets::union(s, rest);
    }
    base_sets::with(rest, i)
}

// Every action with no items left goes. The two arrays stand apart, for the same reason.
pub fn settle<'a, 'b>(sets: &'b mut [u64; SETS], numbers: &'a [u32; NUMBERS])
    requires { length sets.old ≡ 131 }
    ensures kept { length sets.new ≡ 131 }
    ensures same { (i : ℕ) → 65 ≤ i → get_or sets.new i 0 ≡ get_or sets.old i 0 }
    ensures settled { (script kinds starts : List ℕ) (weight spent : ℕ) (b : Closure) → kinds_in numbers.now ≡ kinds → Ready script kinds starts (own_state sets.old numbers.now) → spent < 4294967295 → Represents script kinds starts weight spent (own_state sets.old numbers.now) b → Represents script kinds starts weight spent (own_state sets.new numbers.now) (settle_under (bound_in script (own_state sets.old numbers.now)) b) }
{
    let top = sets[TOP];
    let busy = sets[BUSY];
    let s = settle_below(sets, numbers, busy, top, 64);
    sets[TOP] = s;
}

// The first item of an action that is not spent, under the bindings that are lent.
fn item_under(script: &[u32], start: u32, offset: u32, numbers: &[u32; NUMBERS]) -> First
    requires { Counted script.now (bindings_at numbers.now) }
    ensures { offset < 4294967295 → result ≡ first_of (view_under (bindings_of script.now (bindings_at numbers.now))) (head_of script.now 2 start offset) }
{
    let bindings = bindings_from(numbers, wide(numbers[FIRST]));
    part_item(script, ACTION, start, offset, bindings.held())
}

// What the action a does first, at the next offset.
pub fn spend(script: &[u32], lent: &mut StateArrays, a: usize)
    requires { (a < 64) × LentReady script.now lent.old.sets lent.old.numbers }
    ensures lends { LentReady script.now lent.new.sets lent.new.numbers }
    ensures table { (kinds_in lent.new.numbers ≡ kinds_in lent.old.numbers) × (starts_in lent.new.numbers ≡ starts_in lent.old.numbers) }
    ensures same { ((own_state lent.new.sets lent.new.numbers).kids ≡ (own_state lent.old.sets lent.old.numbers).kids) × ((own_state lent.new.sets lent.new.numbers).bindings ≡ (own_state lent.old.sets lent.old.numbers).bindings) }
    ensures raised { get_or (kinds_in lent.old.numbers) a 0 ≡ 2 → get_or (own_state lent.old.sets lent.old.numbers).offsets a 0 < 4294967295 → (own_state lent.new.sets lent.new.numbers).offsets ≡ set (own_state lent.old.sets lent.old.numbers).offsets a (get_or (own_state lent.old.sets lent.old.numbers).offsets a 0 + 1) }
{
    let offset = lent.numbers[OFFSETS + a];
    if lent.numbers[a] != ACTION as u32 || offset == u32::MAX {
        return;
    }
    let item = item_under(script, lent.numbers[STARTS + a], offset + 1, &lent.numbers);
    let names = NameTable {
        named: lent.sets[NAMED],
        names: stretch(&lent.numbers, NAMES),
    };
    let d = item_deed(item, &names);
    let busy = lent.sets[BUSY];
    lent.numbers[OFFSETS + a] = offset + 1;
    lent.numbers[ACTS + a] = d.act as u32;
    lent.sets[AIMS + a] = d.aim;
    lent.sets[BUSY] = base_sets::with_if(base_sets::without(busy, a), a, d.busy);
}

// The state before it is settled: the receipt a and the output t are gone from the body of p, the receipt's body stands
// there, and its variable is bound.
pub fn received<'a>(
    script: &'a [u32],
    kinds: &'a [u8; 64],
    starts: &'a [u32; 64],
    state: State,
    p: usize,
    a: usize,
    t: usize,
) -> State
    requires { (p < 65) × (a < 64) × (t < 64) × Ready script.now kinds.now starts.now state }
    ensures ready { Ready script.now kinds.now starts.now result }
    ensures bound { (state.bindings.first ≡ 0 → ⊥) → Received script.now kinds.now starts.now state result p a t }
{
    if state.bindings.first == 0 {
        return state;
    }
    let bound = state.bindings.bind(script, starts[a], starts[t]);
    let here = state.kids[p];
    let inside = state.kids[a];
    let mut kids = state.kids;
    kids[p] = base_sets::union(inside, base_sets::without(base_sets::without(here, a), t));
    noted(script, kinds, starts, kids, state.offsets, bound)
}

// The state before the first move, from the script's part table, whose sets are kids.
pub fn first_state<'a>(
    script: &'a [u32],
    kinds: &'a [u8; 64],
    starts: &'a [u32; 64],
    kids: [u64; 65],
) -> State
    ensures ready { Ready script.now kinds.now starts.now result × (bound_in script.now result ≡ []) }
    ensures begun { (count : ℕ) (b : Script) → Tabled script.now (record { kinds = kinds.entry.now; starts = starts.now; kids = kids; count = count }) b → Represents script.now kinds.entry.now starts.now (parts b) 0 result (settle_under [] (closure_of b)) }
{
    let begun = noted(script, kinds, starts, kids, [0; 64], Bindings::none());
    let mut lent = to_arrays(*kinds, *starts, begun);
    settle(&mut lent.sets, &lent.numbers);
    let top = lent.sets[TOP];
    from_arrays(&lent, top).state
}

// PLACED: the top parts as the body of a new part i, an ambient of that name. Its start represents the name itself.
pub fn place_part(
    script: &[u32],
    kinds: [u8; 64],
    starts: [u32; 64],
    state: State,
    i: usize,
    name: u32,
) -> TabledState
    requires { (i < 64) × (name < 536870912) × Ready script.now kinds starts state }
    ensures ready { Ready script.now result.kinds result.starts result.state × (bound_in script.now result.state ≡ bound_in script.now state) }
    ensures placed { (weight spent : ℕ) (b : Closure) → Represents script.now kinds starts weight spent state b → times_in i b ≡ 0 → weight < 64 → Represents script.now result.kinds result.starts (weight + 1) spent result.state (part i (ambient (named name)) b close) }
{
    let mut with_kind = kinds;
    with_kind[i] = AMBIENT;
    let mut with_start = starts;
    with_start[i] = FIRST_NAME + name;
    let mut kids = state.kids;
    kids[i] = kids[TOP];
    kids[TOP] = base_sets::single(i);
    let next = noted(
        script,
        &with_kind,
        &with_start,
        kids,
        state.offsets,
        state.bindings,
    );
    TabledState {
        kinds: with_kind,
        starts: with_start,
        state: next,
    }
}
