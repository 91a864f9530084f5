// How many words messages under bindings are written with, and the holder of the bindings with what was counted of each
// message when it was bound: its items, its words, and the words of its items with one PATH each. So a new binding,
// too, is counted in one pass over words; counts stop at 2^32 - 1.
#![tactic(auto)]

ghost use Rattle.std.specs.Prelude.{◌≡◌, ℕ, ◌+◌, ◌<◌, ◌^◌, List, length, drop};
ghost use Rattle.read_messages.specs.Message.{items};
ghost use Rattle.read_messages.specs.Spelling.{spelled, message_at};
ghost use Rattle.theory_closures.specs.Resolve.{resolve};
ghost use Rattle.engine_bindings.specs.Bindings.{bindings_in};
ghost use Rattle.base_slices.specs.Sums.{capped};
ghost use Rattle.engine_bindings.specs.Passes.{firsts, all_items, own_items};
ghost use Rattle.engine_held_bindings.specs.Sizes.{message_size, items_size, bulk, capped_items, Sized, Cached, all_sizes, own_size, OwnAsked, PendingAsked, ItemWordsAsked};
ghost use Rattle.engine_held_bindings.specs.Held.{NewBinding, BindAsked, NoneHeld, OneMore};

use base_slices::{sum, tail, wide};
use engine_bindings::{after_own, item_count, own};
use engine_message_words::{Binding, arity, bound, first_word, given};
use read_messages::MessageWord;

// How many bindings can be held.
pub const MOST_BINDINGS: usize = 32;

// A row that no binding has taken.
const FREE: Binding = Binding {
    variable: 0,
    source: 0,
    count: 0,
    size: 0,
    bulk: 0,
};

// The bindings: the rows from first on, newest first. No heap: so an array that is filled from its end, and no Vec.
#[derive(Clone, Copy)]
pub struct Bindings {
    pub rows: [Binding; 32],
    pub first: usize,
}

// The number of words that a word is written with itself, after the bindings.
fn own_size(m: MessageWord, bindings: &[Binding]) -> u32
    ensures { (script : List ℕ) → Sized script bindings.now → result ≡ capped (own_size (bindings_in script bindings.now) m) }
{
    match bound(m, bindings) {
        Some(k) => bindings[k].size,
        None => 1,
    }
}

// The number of words that the first `pending` messages of the words are written with, after the bindings.
fn size_from(words: &[u32], pending: usize, bindings: &[Binding]) -> u32
    requires { pending + length words.now < 2 ^ 64 }
    ensures { (script : List ℕ) → Sized script bindings.now → result ≡ capped (all_sizes (bindings_in script bindings.now) (firsts pending (spelled words.now))) }
{
    if pending == 0 {
        return 0;
    }
    let m = first_word(words);
    let a = arity(m);
    sum(
        own_size(m, bindings),
        size_from(tail(words, 1), pending - 1 + a, bindings),
    )
}

// The number of words that the message at a word of the script is written with, after the bindings.
pub fn words_of(script: &[u32], at: usize, bindings: &[Binding]) -> u32
    requires { Sized script.now bindings.now }
    ensures { result ≡ capped (message_size (resolve (bindings_in script.now bindings.now) (message_at (drop at script.now)))) }
{
    size_from(tail(script, at), 1, bindings)
}

// The bulk of those from the offset on of the items that the first of the words has of its own.
#[cycle(bulk_from_own_bulk)]
fn own_bulk(script: &[u32], words: &[u32], offset: u32, bindings: &[Binding]) -> u32
    requires { OwnAsked script.now words.now offset bindings.now }
    ensures { result ≡ capped (bulk (drop offset (own_items (bindings_in script.now bindings.now) words.now))) }
{
    let Some(k) = bound(first_word(words), bindings) else {
        return sum(1, size_from(words, 1, bindings));
    };
    if offset == 0 {
        return bindings[k].bulk;
    }
    bulk_from(
        script,
        given(script, bindings, k),
        1,
        offset,
        &bindings[k + 1..],
    )
}

// The bulk of those from the offset on of the items of the first `pending` messages of the words, after the bindings.
#[cycle(bulk_from_own_bulk)]
fn bulk_from(
    script: &[u32],
    words: &[u32],
    pending: usize,
    offset: u32,
    bindings: &[Binding],
) -> u32
    requires { PendingAsked script.now words.now pending offset bindings.now }
    ensures { result ≡ capped (bulk (drop offset (all_items (bindings_in script.now bindings.now) (firsts pending (spelled words.now))))) }
{
    if pending == 0 {
        return 0;
    }
    let o = own(words, bindings);
    let b = after_own(words, pending);
    let rest = tail(words, b.used);
    if o <= offset {
        return bulk_from(script, rest, b.left, offset - o, bindings);
    }
    sum(
        own_bulk(script, words, offset, bindings),
        bulk_from(script, rest, b.left, 0, bindings),
    )
}

// The bulk of those from the offset on of the items of the message at a word of the script, after the bindings.
fn bulk_of(script: &[u32], at: usize, offset: u32, bindings: &[Binding]) -> u32
    requires { ItemWordsAsked script.now offset bindings.now }
    ensures { result ≡ capped (bulk (drop offset (items (resolve (bindings_in script.now bindings.now) (message_at (drop at script.now)))))) }
{
    bulk_from(script, tail(script, at), 1, offset, bindings)
}

// The number of words, at most 2^32 - 2, that an action's items from the offset on are written with.
pub fn item_words(script: &[u32], at: usize, offset: u32, bindings: &[Binding]) -> u32
    requires { ItemWordsAsked script.now offset bindings.now }
    ensures { result ≡ capped_items (items_size (drop offset (items (resolve (bindings_in script.now bindings.now) (message_at (drop at script.now)))))) }
{
    let b = bulk_of(script, at, offset, bindings);
    if b == 0 { 1 } else { b - 1 }
}

// The binding of the variable to the message at a word of the script, where the others are older: what is counted of the
// message is its items, the words that it is written with, and the words of its items with one PATH each; each at most
// 2^32 - 1.
fn new_binding(script: &[u32], bindings: &[Binding], v: u32, at: u32) -> Binding
    requires { Cached script.now bindings.now }
    ensures { NewBinding script.now bindings.now v at result }
{
    let start = wide(at);
    Binding {
        variable: v,
        source: at,
        count: item_count(script, start, bindings),
        size: words_of(script, start, bindings),
        bulk: bulk_of(script, start, 0, bindings),
    }
}

impl Bindings {
    // No bindings.
    pub fn none() -> Bindings
        ensures { (script : List ℕ) → NoneHeld script result }
    {
        Bindings {
            rows: [FREE; MOST_BINDINGS],
            first: MOST_BINDINGS,
        }
    }

    // The bindings that are held, newest first.
    pub fn held(&self) -> &[Binding]
        ensures { result.now ≡ drop self.now.first self.now.rows }
    {
        let first = self.first;
        if first <= MOST_BINDINGS {
            &self.rows[first..]
        } else {
            &self.rows[MOST_BINDINGS..]
        }
    }

    // The bindings with one more, of the message at a word of the script.
    pub fn bind(self, script: &[u32], v: u32, at: u32) -> Bindings
        requires { BindAsked script.now self }
        ensures { OneMore script.now self v at result }
    {
        let next = self.first - 1;
        let mut r = self;
        r.rows[next] = new_binding(script, self.held(), v, at);
        r.first = next;
        r
    }
}
