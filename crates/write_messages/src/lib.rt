// The writers of a message and of an action's items: each writes at the front of the buffer that it is lent, says how
// many words it wrote, and lends the tail behind them to the next writer.
#![tactic(auto)]

ghost use Rattle.std.specs.Prelude.{◌≡◌, [], ◌∷◌, ◌-◌, drop};
ghost use Rattle.read_messages.specs.Words.{word};
ghost use Rattle.read_messages.specs.Message.{items};
ghost use Rattle.read_messages.specs.Spelling.{spelled, message_at};
ghost use Rattle.theory_closures.specs.Resolve.{resolve};
ghost use Rattle.engine_bindings.specs.Bindings.{bindings_in};
ghost use Rattle.engine_bindings.specs.Passes.{firsts, all_items, own_items};
ghost use Rattle.theory_written_trees.specs.Write.{new_index, write_message, one_message};
ghost use Rattle.write_messages.specs.Buffer.{Wrote};
ghost use Rattle.write_messages.specs.Indices.{indices_in, Indexed};
ghost use Rattle.write_messages.specs.Asked.{PlainWordAsked, MessagesAsked, ItemsAsked, OwnItemsAsked, PendingItemsAsked};
ghost use Rattle.write_messages.specs.Passes.{all_written, plain_word, link, strung};

use base_slices::tail;
use engine_bindings::{after_own, item_count, own};
use engine_message_words::{Binding, arity, bound, first_word, given};
use read_messages::MessageWord;

// The words of messages, by their kinds: the operand of each is 0.
const NAME_WORD: u32 = 0x80000000;

const VARIABLE_WORD: u32 = 0x90000000;

const ENTER_WORD: u32 = 0xA0000000;

const EXIT_WORD: u32 = 0xB0000000;

const OPEN_WORD: u32 = 0xC0000000;

const EMPTY_WORD: u32 = 0xD0000000;

const PATH_WORD: u32 = 0xE0000000;

// A receipt around what is written: its variable, and its new index.
#[derive(Clone, Copy)]
pub struct Receipt {
    pub variable: u32,
    pub index: u32,
}

// Writes one word, if there is room; says how many words it wrote.
#[tactic(auto, using(crate::proofs::Lending::wrote_one))]
pub fn write_word(w: u32, out: &mut [u32]) -> usize
    ensures { Wrote (w ∷ []) out.old out.new result }
{
    if out.len() == 0 {
        return 0;
    }
    out[0] = w;
    1
}

// The word of VAR for the variable of a receipt: its new index. By a for: behind the library's find the proof lacked what was
// found.
fn variable_word(v: u32, receipts: &[Receipt]) -> u32
    requires { Indexed receipts.now }
    ensures { result ≡ word 9 (new_index (indices_in receipts.now) v) }
{
    for r in receipts {
        if r.variable == v {
            return VARIABLE_WORD + r.index;
        }
    }
    VARIABLE_WORD
}

// The word that is written for a word of a message, no variable with a binding.
#[tactic(auto, unfolding(crate::specs::Passes::plain_word, read_messages::specs::Words::word))]
fn plain_word(m: MessageWord, receipts: &[Receipt]) -> u32
    requires { PlainWordAsked m receipts.now }
    ensures { result ≡ plain_word (indices_in receipts.now) m }
{
    match m {
        MessageWord::Name(n) => NAME_WORD + n,
        MessageWord::Variable(v) => variable_word(v, receipts),
        MessageWord::Enter => ENTER_WORD,
        MessageWord::Exit => EXIT_WORD,
        MessageWord::Open => OPEN_WORD,
        MessageWord::Empty => EMPTY_WORD,
        MessageWord::Path => PATH_WORD,
        MessageWord::Unfit => EMPTY_WORD,
    }
}

// Writes the first `pending` messages of the words, after the bindings.
fn write_from(
    script: &[u32],
    words: &[u32],
    pending: usize,
    bindings: &[Binding],
    receipts: &[Receipt],
    out: &mut [u32],
) -> usize
    requires { MessagesAsked words.now pending receipts.now }
    ensures { Wrote (all_written (indices_in receipts.now) (bindings_in script.now bindings.now) (firsts pending (spelled words.now))) out.old out.new result }
{
    if pending == 0 {
        return 0;
    }
    let w = first_word(words);
    let rest = tail(words, 1);
    if let Some(k) = bound(w, bindings) {
        let of_binding = given(script, bindings, k);
        let m = write_from(script, of_binding, 1, &bindings[k + 1..], receipts, out);
        return write_from(script, rest, pending - 1, bindings, receipts, &mut out[m..]) + m;
    }
    let m = write_word(plain_word(w, receipts), out);
    let inside = arity(w);
    write_from(
        script,
        rest,
        pending - 1 + inside,
        bindings,
        receipts,
        &mut out[m..],
    ) + m
}

// Writes the message at a word of the script, after the bindings.
pub fn write_message(
    script: &[u32],
    at: usize,
    bindings: &[Binding],
    receipts: &[Receipt],
    out: &mut [u32],
) -> usize
    requires { Indexed receipts.now }
    ensures { Wrote (write_message (indices_in receipts.now) (resolve (bindings_in script.now bindings.now) (message_at (drop at script.now)))) out.old out.new result }
{
    write_from(script, tail(script, at), 1, bindings, receipts, out)
}

// Writes PATH, if more than one item is still to be written.
#[tactic(auto, using(crate::proofs::Lending::wrote_none), unfolding(crate::specs::Passes::link, read_messages::specs::Words::word))]
fn write_link(left: u32, out: &mut [u32]) -> usize
    ensures { Wrote (link left) out.old out.new result }
{
    if left <= 1 {
        return 0;
    }
    write_word(PATH_WORD, out)
}

// Writes those from the offset on of the items that the first of the words has of its own, where `left` items are still to
// be written.
#[cycle(write_own_write_rest)]
fn write_own(
    script: &[u32],
    words: &[u32],
    offset: u32,
    left: u32,
    bindings: &[Binding],
    receipts: &[Receipt],
    out: &mut [u32],
) -> usize
    requires { OwnItemsAsked script.now words.now offset bindings.now receipts.now out.old }
    ensures { Wrote (strung (indices_in receipts.now) left (drop offset (own_items (bindings_in script.now bindings.now) words.now))) out.old out.new result }
{
    if let Some(k) = bound(first_word(words), bindings) {
        let of_binding = given(script, bindings, k);
        return write_rest(
            script,
            of_binding,
            1,
            offset,
            left,
            &bindings[k + 1..],
            receipts,
            out,
        );
    }
    let m = write_link(left, out);
    write_from(script, words, 1, bindings, receipts, &mut out[m..]) + m
}

// Writes those from the offset on of the items of the first `pending` messages of the words, where `left` items are still
// to be written.
#[cycle(write_own_write_rest)]
fn write_rest(
    script: &[u32],
    words: &[u32],
    pending: usize,
    offset: u32,
    left: u32,
    bindings: &[Binding],
    receipts: &[Receipt],
    out: &mut [u32],
) -> usize
    requires { PendingItemsAsked script.now words.now pending offset bindings.now receipts.now out.old }
    ensures { Wrote (strung (indices_in receipts.now) left (drop offset (all_items (bindings_in script.now bindings.now) (firsts pending (spelled words.now))))) out.old out.new result }
{
    if pending == 0 {
        return 0;
    }
    let o = own(words, bindings);
    let b = after_own(words, pending);
    let behind = tail(words, b.used);
    let after = b.left;
    if o <= offset {
        return write_rest(
            script,
            behind,
            after,
            offset - o,
            left,
            bindings,
            receipts,
            out,
        );
    }
    let m = write_own(script, words, offset, left, bindings, receipts, out);
    let next = left.saturating_sub(o - offset);
    write_rest(
        script,
        behind,
        after,
        0,
        next,
        bindings,
        receipts,
        &mut out[m..],
    ) + m
}

// Writes an action's items from the offset on, after the bindings.
pub fn write_items(
    script: &[u32],
    at: usize,
    offset: u32,
    bindings: &[Binding],
    receipts: &[Receipt],
    out: &mut [u32],
) -> usize
    requires { ItemsAsked script.now offset bindings.now receipts.now out.old }
    ensures { Wrote (write_message (indices_in receipts.now) (one_message (drop offset (items (resolve (bindings_in script.now bindings.now) (message_at (drop at script.now))))))) out.old out.new result }
{
    let n = item_count(script, at, bindings);
    if n <= offset {
        return write_word(EMPTY_WORD, out);
    }
    write_rest(
        script,
        tail(script, at),
        1,
        offset,
        n - offset,
        bindings,
        receipts,
        out,
    )
}
