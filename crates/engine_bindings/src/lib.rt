// Messages under bindings, read from the script's words. A binding says that a receipt was given the message at a word
// of the script. Bindings are lent in one slice, newest first; each comes with what was counted of its message when it was
// bound, as the number of its items. The older bindings are those behind it. Each operation is one pass over words, since
// a variable's count is at hand; counts stop at 2^32 - 1.
#![tactic(auto)]

ghost use Rattle.std.specs.Prelude.{◌≡◌, ℕ, ◌+◌, ◌<◌, ◌^◌, List, length, drop};
ghost use Rattle.read_messages.specs.Message.{items, name_of};
ghost use Rattle.read_messages.specs.Spelling.{spelled, message_at};
ghost use Rattle.theory_closures.specs.Resolve.{resolve};
ghost use Rattle.engine_bindings.specs.Bindings.{bindings_in, message_of};
ghost use Rattle.base_slices.specs.Sums.{capped};
ghost use Rattle.engine_bindings.specs.Measures.{Counted, with_sources};
ghost use Rattle.engine_bindings.specs.Passes.{firsts, all_items, own_items, Skipped, Passed};
ghost use Rattle.engine_bindings.specs.Asked.{AfterOwnAsked};

use base_slices::{sum, tail, wide};
use engine_message_words::{Binding, arity, bound, first_word, given, plain_name, shape_of};

// From here on a part's start is no word of the script: the rest is a name that the part was given directly.
pub const FIRST_NAME: u32 = 65536;

// Where a pass stands behind a word's own items: the words used, and the messages still pending.
#[derive(Drop)]
pub struct Behind {
    pub used: usize,
    pub left: usize,
}

// The name that the message at the first of the words is, after the bindings.
pub fn name_of(script: &[u32], words: &[u32], bindings: &[Binding]) -> Option<u32>
    ensures { result ≡ name_of (resolve (bindings_in script.now bindings.now) (message_at words.now)) }
{
    let m = first_word(words);
    match bound(m, bindings) {
        Some(k) => name_of(script, given(script, bindings, k), &bindings[k + 1..]),
        None => plain_name(m),
    }
}

// The name that a part's message is, after the bindings: the message at a word of the script, or a name given directly.
pub fn name_at(script: &[u32], start: u32, bindings: &[Binding]) -> Option<u32>
    ensures { result ≡ name_of (resolve (bindings_in script.now bindings.now) (message_of script.now start)) }
{
    if start < FIRST_NAME {
        return name_of(script, tail(script, wide(start)), bindings);
    }
    Some(start - FIRST_NAME)
}

// How many words the first `pending` messages of the words have.
fn skip(words: &[u32], pending: usize) -> usize
    requires { pending + length words.now < 2 ^ 64 }
    ensures { Skipped words.now pending result }
{
    if pending == 0 {
        return 0;
    }
    if words.len() == 0 {
        return 0;
    }
    let a = arity(first_word(words));
    skip(tail(words, 1), pending - 1 + a) + 1
}

// The number of items that the first of the words has of its own, for any sources of the bindings that the counts fit.
pub fn own(words: &[u32], bindings: &[Binding]) -> u32
    ensures { (script sources : List ℕ) → Counted script (with_sources sources bindings.now) → result ≡ capped (length (own_items (bindings_in script (with_sources sources bindings.now)) words.now)) }
{
    let m = first_word(words);
    match bound(m, bindings) {
        Some(k) => bindings[k].count,
        None => shape_of(m).items,
    }
}

// Where a pass over the items of the first `pending` messages stands behind the first word's own items.
pub fn after_own(words: &[u32], pending: usize) -> Behind
    requires { AfterOwnAsked words.now pending }
    ensures { Passed words.now pending result }
{
    let s = shape_of(first_word(words));
    Behind {
        used: skip(tail(words, 1), s.closed) + 1,
        left: pending - 1 + s.opened,
    }
}

// The number of items of the first `pending` messages of the words, after the bindings.
fn count_from(words: &[u32], pending: usize, bindings: &[Binding]) -> u32
    requires { pending + length words.now < 2 ^ 64 }
    ensures { (script : List ℕ) → Counted script bindings.now → result ≡ capped (length (all_items (bindings_in script bindings.now) (firsts pending (spelled words.now)))) }
{
    if pending == 0 {
        return 0;
    }
    let b = after_own(words, pending);
    sum(
        own(words, bindings),
        count_from(tail(words, b.used), b.left, bindings),
    )
}

// The number of items of the message at a word of the script, after the bindings.
pub fn item_count(script: &[u32], at: usize, bindings: &[Binding]) -> u32
    requires { Counted script.now bindings.now }
    ensures { result ≡ capped (length (items (resolve (bindings_in script.now bindings.now) (message_at (drop at script.now))))) }
{
    count_from(tail(script, at), 1, bindings)
}
