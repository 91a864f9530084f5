// The first word of a message: how it begins the message, what it is by itself, and which binding it has where it is a
// variable. Bindings are lent in one slice, newest first.
#![tactic(auto)]

ghost use Rattle.std.specs.Prelude.{◌≡◌, ◌<◌, IfSome, length, drop};
ghost use Rattle.engine_message_words.specs.Words.{newest_binding, binding_at, first_word, shape_with, shape_of, arity_of, bound_at, plain_name, plain_item};

use base_slices::{tail, wide};
use read_messages::{First, MessageWord, message_word};

// A binding: the variable of a receipt, the index in the script of the first word of the message that it was given, and what
// was counted of that message when it was bound: its items, the words that it is written with, and the words of its items
// with one PATH each.
#[derive(Clone, Copy)]
pub struct Binding {
    pub variable: u32,
    pub source: u32,
    pub count: u32,
    pub size: u32,
    pub bulk: u32,
}

// How a word begins a message: the items that it is of its own, the messages behind it that are closed in such an item,
// and those that stand open.
#[derive(Drop)]
pub struct Shape {
    pub items: u32,
    pub closed: usize,
    pub opened: usize,
}

// The first of the words; where there is none, EMPTY.
#[tactic(auto, unfolding(crate::specs::Words::first_word))]
pub fn first_word(words: &[u32]) -> MessageWord
    ensures { result ≡ first_word words.now }
{
    match words {
        [] => MessageWord::Empty,
        [w, ..] => message_word(*w),
    }
}

// The shape with these numbers.
fn shaped(items: u32, closed: usize, opened: usize) -> Shape
    ensures { result ≡ shape_with items closed opened }
{
    Shape {
        items,
        closed,
        opened,
    }
}

// How the word begins a message.
#[tactic(auto, unfolding(crate::specs::Words::shape_of))]
pub fn shape_of(m: MessageWord) -> Shape
    ensures { result ≡ shape_of m }
{
    match m {
        MessageWord::Name(_) | MessageWord::Variable(_) => shaped(1, 0, 0),
        MessageWord::Enter | MessageWord::Exit | MessageWord::Open => shaped(1, 1, 0),
        MessageWord::Path => shaped(0, 0, 2),
        MessageWord::Empty | MessageWord::Unfit => shaped(0, 0, 0),
    }
}

// How many messages stand in a message that begins with this word.
#[tactic(auto, unfolding(crate::specs::Words::shape_of))]
pub fn arity(m: MessageWord) -> usize
    ensures { result ≡ arity_of m }
{
    let s = shape_of(m);
    s.closed + s.opened
}

// The name that a message is which begins with this word, no variable with a binding.
#[tactic(auto, unfolding(crate::specs::Words::plain_name))]
pub fn plain_name(m: MessageWord) -> Option<u32>
    ensures { result ≡ plain_name m }
{
    match m {
        MessageWord::Name(n) => Some(n),
        _ => None,
    }
}

// The first item that a word is, no variable with a binding; inside is the name that the message behind it is, for which
// IN, EXIT and OPEN ask.
#[tactic(auto, unfolding(crate::specs::Words::plain_item))]
pub fn plain_item(m: MessageWord, inside: Option<u32>) -> First
    ensures { result ≡ plain_item m inside }
{
    match m {
        MessageWord::Enter => First::Enter(inside),
        MessageWord::Exit => First::Exit(inside),
        MessageWord::Open => First::Open(inside),
        _ => First::Other,
    }
}

// The index of the newest binding of a variable, if it has one.
#[tactic(auto, unfolding(crate::specs::Words::newest_binding))]
pub fn find(bindings: &[Binding], v: u32) -> Option<usize>
    ensures newest { result ≡ newest_binding bindings.now v }
    ensures within { IfSome result (λ k. k < length bindings.now) }
{
    bindings.iter().position(|b| b.variable == v)
}

// The index of the newest binding of a word, if it is a variable that has one.
#[tactic(auto, unfolding(crate::specs::Words::bound_at))]
pub fn bound(m: MessageWord, bindings: &[Binding]) -> Option<usize>
    ensures newest { result ≡ bound_at m bindings.now }
    ensures within { IfSome result (λ k. k < length bindings.now) }
{
    match m {
        MessageWord::Variable(v) => find(bindings, v),
        _ => None,
    }
}

// The words of the message of the binding at that index.
pub fn given<'a>(script: &'a [u32], bindings: &[Binding], k: usize) -> &'a [u32]
    requires { k < length bindings.now }
    ensures { result.now ≡ drop (binding_at bindings.now k).source script.now }
{
    tail(script, wide(bindings[k].source))
}
