// A state as two arrays, for lending: written into them and read out again.
#![tactic(auto)]

ghost use Rattle.std.specs.Prelude.{◌≡◌, ℕ, ◌+◌, ◌≤◌, get_or, set, drop};
ghost use Rattle.base_arrays.specs.Stretches.{stretch};
ghost use Rattle.engine_state_arrays.specs.Lent.{kinds_in, starts_in, row_at, bindings_at, state_in, own_state, Small};

use base_arrays::{narrow, put, stretch, widen};
use base_slices::wide;
use engine_held_bindings::{Bindings, MOST_BINDINGS};
use engine_message_words::Binding;
use engine_states::{PartNotes, State};

// The sets: the bodies of the parts, the top parts, the parts that each part aims at, the named parts and the busy ones.
pub const SETS: usize = 131;

pub const TOP: usize = 64;

pub const AIMS: usize = 65;

pub const NAMED: usize = 129;

pub const BUSY: usize = 130;

// The numbers: the kinds of the parts, their starts, offsets, names and acts, 64 of each; then the rows of the bindings, and
// the first of them.
pub const NUMBERS: usize = 481;

pub const KINDS: usize = 0;

pub const STARTS: usize = 64;

pub const OFFSETS: usize = 128;

pub const NAMES: usize = 192;

pub const ACTS: usize = 256;

pub const ROWS: usize = 320;

pub const FIRST: usize = 480;

// How many numbers a row is.
const ROW: usize = 5;

// A state beside the part table to which it belongs.
#[derive(Drop)]
pub struct TabledState {
    pub kinds: [u8; 64],
    pub starts: [u32; 64],
    pub state: State,
}

// A state and its part table as two arrays.
#[derive(Clone, Copy)]
pub struct StateArrays {
    pub sets: [u64; SETS],
    pub numbers: [u32; NUMBERS],
}

// The numbers of the parts, where they belong.
fn part_numbers(
    kinds: [u8; 64],
    starts: [u32; 64],
    offsets: [u32; 64],
    names: [u32; 64],
    acts: [u8; 64],
) -> [u32; NUMBERS]
    ensures tables { (kinds_in result ≡ kinds) × (starts_in result ≡ starts) × (stretch 128 64 result ≡ offsets) × (stretch 192 64 result ≡ names) × (stretch 256 64 result ≡ acts) }
    ensures small { Small result }
{
    let wide_kinds = widen(kinds);
    let wide_acts = widen(acts);
    let mut r: [u32; NUMBERS] = [0; 481];
    put(&mut r, KINDS, &wide_kinds);
    put(&mut r, STARTS, &starts);
    put(&mut r, OFFSETS, &offsets);
    put(&mut r, NAMES, &names);
    put(&mut r, ACTS, &wide_acts);
    r
}

// The same, with those of the bindings.
fn with_bindings(numbers: [u32; NUMBERS], bindings: Bindings) -> [u32; NUMBERS]
    requires { bindings.first ≤ 32 }
    ensures rows { bindings_at result ≡ bindings }
    ensures others { (i n : ℕ) → i + n ≤ 320 → stretch i n result ≡ stretch i n numbers }
{
    let mut r = numbers;
    for i in 0..MOST_BINDINGS {
        let b = bindings.rows[i];
        put(
            &mut r,
            ROWS + ROW * i,
            &[b.variable, b.source, b.count, b.size, b.bulk],
        );
    }
    r[FIRST] = bindings.first as u32;
    r
}

// The sets, where they belong.
fn all_sets(kids: [u64; 65], aims: [u64; 64], named: u64, busy: u64) -> [u64; SETS]
    ensures { (stretch 0 65 result ≡ kids) × (stretch 65 64 result ≡ aims) × (get_or result 129 0 ≡ named) × (get_or result 130 0 ≡ busy) }
{
    let mut r: [u64; SETS] = [0; 131];
    put(&mut r, 0, &kids);
    put(&mut r, AIMS, &aims);
    r[NAMED] = named;
    r[BUSY] = busy;
    r
}

// A state and its part table, for lending.
pub fn to_arrays(kinds: [u8; 64], starts: [u32; 64], state: State) -> StateArrays
    requires { state.bindings.first ≤ 32 }
    ensures tables { (kinds_in result.numbers ≡ kinds) × (starts_in result.numbers ≡ starts) × Small result.numbers }
    ensures state { own_state result.sets result.numbers ≡ state }
{
    let kids = state.kids;
    let offsets = state.offsets;
    let notes = state.notes;
    let names = notes.names;
    let acts = notes.acts;
    let aims = notes.aims;
    let parts = part_numbers(kinds, starts, offsets, names, acts);
    let numbers = with_bindings(parts, state.bindings);
    let sets = all_sets(kids, aims, notes.named, notes.busy);
    StateArrays { sets, numbers }
}

// The bodies that were lent, with top as the set of the top parts.
pub fn bodies(sets: &[u64; SETS], top: u64) -> [u64; 65]
    ensures { result ≡ set (stretch 0 65 sets.now) 64 top }
{
    let mut kids: [u64; 65] = stretch(sets, 0);
    kids[TOP] = top;
    kids
}

// The row of a binding that begins at a number.
fn row(numbers: &[u32; NUMBERS], at: usize) -> Binding
    requires { at + 5 ≤ 481 }
    ensures { result ≡ row_at at numbers.now }
{
    Binding {
        variable: numbers[at],
        source: numbers[at + 1],
        count: numbers[at + 2],
        size: numbers[at + 3],
        bulk: numbers[at + 4],
    }
}

// The bindings that were lent, of which only the rows from that one on are read, and the others are free.
pub fn bindings_from(numbers: &[u32; NUMBERS], from: usize) -> Bindings
    ensures { (result.first ≡ (bindings_at numbers.now).first) × (drop from result.rows ≡ drop from (bindings_at numbers.now).rows) }
{
    let mut bindings = Bindings::none();
    bindings.first = wide(numbers[FIRST]);
    for i in from..MOST_BINDINGS {
        bindings.rows[i] = row(numbers, ROWS + ROW * i);
    }
    bindings
}

// What was lent, with top as the set of the top parts.
pub fn from_arrays(lent: &StateArrays, top: u64) -> TabledState
    ensures { Small lent.now.numbers → (result.kinds ≡ kinds_in lent.now.numbers) × (result.starts ≡ starts_in lent.now.numbers) × (result.state ≡ state_in lent.now.sets lent.now.numbers top) }
{
    let notes = PartNotes {
        named: lent.sets[NAMED],
        names: stretch(&lent.numbers, NAMES),
        acts: narrow(stretch(&lent.numbers, ACTS)),
        aims: stretch(&lent.sets, AIMS),
        busy: lent.sets[BUSY],
    };
    TabledState {
        kinds: narrow(stretch(&lent.numbers, KINDS)),
        starts: stretch(&lent.numbers, STARTS),
        state: State {
            kids: bodies(&lent.sets, top),
            offsets: stretch(&lent.numbers, OFFSETS),
            notes,
            bindings: bindings_from(&lent.numbers, 0),
        },
    }
}
