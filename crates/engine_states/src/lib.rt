// What the engine keeps of a closure: its state, what is asked of the parts again and again, and the weight.
#![tactic(auto)]

ghost use Rattle.std.specs.Prelude.{◌≡◌, Bool, true, false, cond, List, ℕ, ◌+◌, ◌*◌, ◌-◌, ◌≤◌, ◌<◌, eqb, length, get_or};
ghost use Rattle.base_sets.specs.Sets.{members, elem};
ghost use Rattle.read_scripts.specs.Tree.{parts};
ghost use Rattle.read_scripts.specs.Represents.{body_in};
ghost use Rattle.engine_bindings.specs.Bindings.{bindings_in};
ghost use Rattle.engine_bindings.specs.Measures.{Counted as KeptCounts};
ghost use Rattle.theory_machine.specs.Moves.{is_that, same_name, head_name, first_of};
ghost use Rattle.theory_closures.specs.Closure.{ClosureHead, Closure, view_under};
ghost use Rattle.engine_states.specs.Searches.{CountsParts};
ghost use Rattle.engine_states.specs.Represents.{head_of, heads, Counted, Ready, Represents};
ghost use Rattle.engine_states.specs.Seen.{name_in, act_of, aim_of, busy_of, is_output, Does, deed_in, Seen};

use base_slices::wide;
use engine_bindings::name_at;
use engine_first_items::first_item;
use engine_held_bindings::Bindings;
use engine_message_words::Binding;
use read_messages::First;
use read_scripts::{ACTION, AMBIENT, RECEIPT};

// What a part does first: what an action's first item asks, or that a receipt receives.
pub const NO_ACT: u8 = 0;

pub const OPEN: u8 = 1;

pub const ENTER: u8 = 2;

pub const EXIT: u8 = 3;

pub const RECEIVE: u8 = 4;

// What is kept of the parts: the set of those that have a name, and their names; what each does first, its act, and the set
// of the parts to which that can be done; the set of those that settling has to do with.
// Kinds and acts are numbers and no enums, and each stands in an array and no row: a state is lent as two arrays of numbers
// (engine_state_arrays: Small, state_in), of which these are stretches.
#[derive(Clone, Copy)]
pub struct PartNotes {
    pub named: u64,
    pub names: [u32; 64],
    pub acts: [u8; 64],
    pub aims: [u64; 64],
    pub busy: u64,
}

// What one part does first.
#[derive(Clone, Copy)]
pub struct Deed {
    pub act: u8,
    pub aim: u64,
    pub busy: bool,
}

// What a part does that does nothing and with which settling has nothing to do.
const IDLE: Deed = Deed {
    act: NO_ACT,
    aim: 0,
    busy: false,
};

// The parts' names.
#[derive(Drop)]
pub struct NameTable {
    pub named: u64,
    pub names: [u32; 64],
}

// What moves change: kids[i] is the set of the parts in the body of part i, and kids[64] that of the top parts; offsets[i]
// is how many items of the action i are spent.
#[derive(Clone, Copy)]
pub struct State {
    pub kids: [u64; 65],
    pub offsets: [u32; 64],
    pub notes: PartNotes,
    pub bindings: Bindings,
}

// The name of a part of that kind and start, under the bindings.
fn part_name(script: &[u32], kind: u8, start: u32, bindings: &[Binding]) -> Option<u32>
    ensures { (offset : ℕ) → result ≡ head_name (view_under (bindings_in script.now bindings.now)) (head_of script.now kind start offset) }
{
    if kind != AMBIENT {
        return None;
    }
    name_at(script, start, bindings)
}

// The first item that is not spent of a part of that kind, start and offset, under the bindings.
pub fn part_item(script: &[u32], kind: u8, start: u32, offset: u32, bindings: &[Binding]) -> First
    requires { KeptCounts script.now bindings.now }
    ensures { offset < 4294967295 → result ≡ first_of (view_under (bindings_in script.now bindings.now)) (head_of script.now kind start offset) }
{
    if kind != ACTION || offset == u32::MAX {
        return First::Nothing;
    }
    first_item(script, wide(start), offset, bindings)
}

// The table with the name of part i, which had none.
fn with_name(t: NameTable, i: usize, name: Option<u32>) -> NameTable
    requires { (i < 64) × (elem i (members t.named) ≡ false) }
    ensures { (j : ℕ) → name_in result.named result.names j ≡ cond (eqb j i) name (name_in t.named t.names j) }
{
    let mut next = t;
    if let Some(n) = name {
        next.named = base_sets::with(next.named, i);
        next.names[i] = n;
    }
    next
}

// The names of all parts under the bindings.
fn name_parts(
    script: &[u32],
    kinds: &[u8; 64],
    starts: &[u32; 64],
    bindings: &[Binding],
) -> NameTable
    ensures { (offsets : List ℕ) (i : ℕ) → i < 64 → name_in result.named result.names i ≡ head_name (view_under (bindings_in script.now bindings.now)) (heads script.now kinds.now starts.now offsets i) }
{
    let mut t = NameTable {
        named: 0,
        names: [0; 64],
    };
    for i in 0..64 {
        let name = part_name(script, kinds[i], starts[i], bindings);
        t = with_name(t, i, name);
    }
    t
}

// The parts whose name is n.
fn parts_called(names: &NameTable, n: u32) -> u64
    ensures { (i : ℕ) → i < 64 → elem i (members result) ≡ is_that n (name_in names.now.named names.now.names i) }
{
    let mut found: u64 = 0;
    for i in 0..64 {
        found = base_sets::with_if(found, i, names.names[i] == n);
    }
    base_sets::intersection(found, names.named)
}

// The parts that have that name, if it is one.
fn aimed(names: &NameTable, name: Option<u32>) -> u64
    ensures { (i : ℕ) → i < 64 → elem i (members result) ≡ same_name name (name_in names.now.named names.now.names i) }
{
    match name {
        Some(n) => parts_called(names, n),
        None => 0,
    }
}

// Whether a part of that kind is an output.
fn is_output(kind: u8) -> bool
    ensures { (script : List ℕ) (start offset : ℕ) → result ≡ is_output (head_of script kind start offset) }
{
    match kind {
        AMBIENT | ACTION | RECEIPT => false,
        _ => true,
    }
}

// The parts that are outputs.
fn outputs(kinds: &[u8; 64]) -> u64
    ensures { (script starts offsets : List ℕ) (i : ℕ) → i < 64 → elem i (members result) ≡ is_output (heads script kinds.now starts offsets i) }
{
    let mut found: u64 = 0;
    for i in 0..64 {
        found = base_sets::with_if(found, i, is_output(kinds[i]));
    }
    found
}

// What an action does by its first item.
pub fn item_deed(item: First, names: &NameTable) -> Deed
    ensures { (o : Bool) → (result.act ≡ act_of 2 item) × ((i : ℕ) → i < 64 → elem i (members result.aim) ≡ aim_of 2 item o (name_in names.now.named names.now.names i)) × (result.busy ≡ busy_of 2 item) }
{
    match item {
        First::Nothing => Deed { busy: true, ..IDLE },
        First::Enter(n) => Deed {
            act: ENTER,
            aim: aimed(names, n),
            ..IDLE
        },
        First::Exit(n) => Deed {
            act: EXIT,
            aim: aimed(names, n),
            ..IDLE
        },
        First::Open(n) => Deed {
            act: OPEN,
            aim: aimed(names, n),
            ..IDLE
        },
        First::Other => IDLE,
    }
}

// What a part of that kind and first item does.
fn kind_deed(kind: u8, item: First, outs: u64, names: &NameTable) -> Deed
    ensures { (result.act ≡ act_of kind item) × ((i : ℕ) → i < 64 → elem i (members result.aim) ≡ aim_of kind item (elem i (members outs)) (name_in names.now.named names.now.names i)) × (result.busy ≡ busy_of kind item) }
{
    match kind {
        AMBIENT => Deed { busy: true, ..IDLE },
        ACTION => item_deed(item, names),
        RECEIPT => Deed {
            act: RECEIVE,
            aim: outs,
            ..IDLE
        },
        _ => IDLE,
    }
}

// What a part of that kind, start and offset does under the bindings.
fn deed_at(
    script: &[u32],
    kind: u8,
    start: u32,
    offset: u32,
    bindings: &[Binding],
    outs: u64,
    names: &NameTable,
) -> Deed
    requires { KeptCounts script.now bindings.now }
    ensures { (w : ℕ → ClosureHead) → offset < 4294967295 → ((j : ℕ) → j < 64 → elem j (members outs) ≡ is_output (w j)) → ((j : ℕ) → j < 64 → name_in names.now.named names.now.names j ≡ head_name (view_under (bindings_in script.now bindings.now)) (w j)) → Does (bindings_in script.now bindings.now) w (head_of script.now kind start offset) result }
{
    let item = part_item(script, kind, start, offset, bindings);
    kind_deed(kind, item, outs, names)
}

// What is kept, with what part i does.
fn with_deed(l: PartNotes, i: usize, d: Deed) -> PartNotes
    requires { i < 64 }
    ensures here { deed_in result i ≡ d }
    ensures others { (j : ℕ) → (j ≡ i → ⊥) → deed_in result j ≡ deed_in l j }
    ensures names { (result.named ≡ l.named) × (result.names ≡ l.names) }
{
    let mut next = l;
    next.acts[i] = d.act;
    next.aims[i] = d.aim;
    next.busy = base_sets::with_if(base_sets::without(next.busy, i), i, d.busy);
    next
}

// What is kept of all parts, under the bindings.
fn note_deeds(
    script: &[u32],
    kinds: &[u8; 64],
    starts: &[u32; 64],
    offsets: &[u32; 64],
    bindings: &[Binding],
) -> PartNotes
    requires { KeptCounts script.now bindings.now }
    ensures { ((i : ℕ) → get_or offsets.now i 0 < 4294967295) → Seen (bindings_in script.now bindings.now) (heads script.now kinds.now starts.now offsets.now) result }
{
    let t = name_parts(script, kinds, starts, bindings);
    let outs = outputs(kinds);
    let mut l = PartNotes {
        named: t.named,
        names: t.names,
        acts: [0; 64],
        aims: [0; 64],
        busy: 0,
    };
    for i in 0..64 {
        let d = deed_at(script, kinds[i], starts[i], offsets[i], bindings, outs, &t);
        l = with_deed(l, i, d);
    }
    l
}

// The state of those bodies, offsets and bindings.
pub fn noted(
    script: &[u32],
    kinds: &[u8; 64],
    starts: &[u32; 64],
    kids: [u64; 65],
    offsets: [u32; 64],
    bindings: Bindings,
) -> State
    requires { Counted script.now bindings }
    ensures ready { Ready script.now kinds.now starts.now result }
    ensures same { (result.kids ≡ kids) × (result.offsets ≡ offsets) × (result.bindings ≡ bindings) }
{
    let notes = note_deeds(script, kinds, starts, &offsets, bindings.held());
    State {
        kids,
        offsets,
        notes,
        bindings,
    }
}

// ---- The weight.

// The number of the parts of left and those inside them, at any depth; 65 where there are more than 64.
fn count_below(kids: &[u64; 65], left: u64, fuel: usize) -> usize
    ensures most { result ≤ 65 }
    ensures counted { fuel ≤ 64 → CountsParts (body_in kids.now) (members left) fuel result }
{
    if left == 0 || fuel == 0 {
        return 0;
    }
    let i = base_sets::first(left);
    let others = base_sets::rest(left);
    let inside = kids[i];
    let a = count_below(kids, inside, fuel - 1);
    let b = count_below(kids, others, fuel - 1);
    if a + b >= 64 {
        return 65;
    }
    1 + a + b
}

// The parts in the tree plus twice the receipts made.
pub fn weigh(state: State) -> usize
    requires { state.bindings.first ≤ 32 }
    ensures { (script kinds starts : List ℕ) (weight spent : ℕ) (b : Closure) → Represents script kinds starts weight spent state b → result ≡ parts b + 2 * (32 - state.bindings.first) }
{
    let kids = state.kids;
    count_below(&kids, kids[64], 64) + 2 * (32 - state.bindings.first)
}
