// The reader of one message of a script: questions 2, 3, 4 and 5 of document 01.
#![tactic(auto)]

ghost use Rattle.std.specs.Prelude.{◌≡◌, ℕ, ◌≤◌, ◌<◌, drop, length, replicate};
ghost use Rattle.base_slices.specs.Fronts.{Fronted};
ghost use Rattle.read_messages.specs.Words.{member, greatest_of};
ghost use Rattle.read_messages.specs.Reading.{cursor, outcome};
ghost use Rattle.read_messages.specs.ReadMessage.{message_word, asked, read_message, MessageReadable};

// A word's top 4 bits are its kind and the low 28 its operand, so it is its kind times this and its operand.
pub const KIND_UNIT: u32 = 268435456;

// The kind of a word that is a name.
pub const NAME: u32 = 8;

// The kind of a word that is a variable: its operand is the index of a receipt.
const VARIABLE: u32 = 9;

// The greatest name.
pub const MOST_NAME: u32 = 255;

// Question 4: the deepest nesting that is let in.
pub const MOST_NESTING: usize = 64;

// The first item of an action: what it asks, and of which name; another item; or none where no item is left.
#[derive(Clone, Copy, Debug, PartialEq, Eq)]
pub enum First {
    Nothing,
    Enter(Option<u32>),
    Exit(Option<u32>),
    Open(Option<u32>),
    Other,
}

// What a word is where a message word is expected.
#[derive(Clone, Copy, Debug, PartialEq, Eq)]
pub enum MessageWord {
    Name(u32),
    Variable(u32),
    Enter,
    Exit,
    Open,
    Empty,
    Path,
    Unfit,
}

// How many messages follow a word.
#[derive(Clone, Copy, Debug, PartialEq, Eq)]
pub enum Arity {
    Leaf,
    One,
    Two,
}

// The first question that is answered by no: its number in document 01, and the index of the word of which it was asked. The
// number stays a number: a host is told it (skycorbel_call), and refuse and refusal of the definitions have it.
#[derive(Clone, Copy, Debug, PartialEq, Eq)]
pub struct Refusal {
    pub question: u32,
    pub place: usize,
}

// The word w by its kind and operand.
#[tactic(auto, using(std::proofs::lemmas::Bool::Decides::nat_tests), unfolding(crate::specs::ReadMessage::message_word, crate::specs::Words::kind, crate::specs::Words::operand, crate::specs::Words::name_fits))]
pub fn message_word(w: u32) -> MessageWord
    ensures { result ≡ message_word w }
{
    let operand = w % KIND_UNIT;
    match (w / KIND_UNIT, operand) {
        (NAME, 1..=MOST_NAME) => MessageWord::Name(operand),
        (VARIABLE, _) => MessageWord::Variable(operand),
        (10, 0) => MessageWord::Enter,
        (11, 0) => MessageWord::Exit,
        (12, 0) => MessageWord::Open,
        (13, 0) => MessageWord::Empty,
        (14, 0) => MessageWord::Path,
        _ => MessageWord::Unfit,
    }
}

// Whether v is the index of one of the receipts around.
#[tactic(auto, unfolding(crate::specs::Words::member))]
pub fn is_around(around: &[u16], v: u32) -> bool
    ensures { result ≡ member v around.now }
{
    around.iter().any(|i| v == *i as u32)
}

// Questions 2, 3 and 4 for a word of that nesting at the index place.
#[tactic(auto, using(std::proofs::lemmas::Bool::Decides::nat_tests), unfolding(crate::specs::ReadMessage::asked, crate::specs::ReadMessage::word_fits, crate::specs::ReadMessage::bound, crate::specs::ReadMessage::follow))]
pub fn ask_message(w: u32, place: usize, nest: usize, around: &[u16]) -> Result<Arity, Refusal>
    ensures { result ≡ asked place nest around.now (message_word w) }
{
    let arity = match message_word(w) {
        MessageWord::Unfit => return Err(Refusal { question: 2, place }),
        MessageWord::Variable(v) if !is_around(around, v) => return Err(Refusal {
            question: 3,
            place,
        }),
        MessageWord::Variable(_) | MessageWord::Name(_) | MessageWord::Empty => Arity::Leaf,
        MessageWord::Enter | MessageWord::Exit | MessageWord::Open => Arity::One,
        MessageWord::Path => Arity::Two,
    };
    if MOST_NESTING < nest {
        return Err(Refusal { question: 4, place });
    }
    Ok(arity)
}

// The message at the front of s, the script's words from index at on; its first word has the nesting nest. The answer is the
// index of the word behind it.
pub fn read_message(s: &[u32], at: usize, nest: usize, around: &[u16]) -> Result<usize, Refusal>
    requires { MessageReadable s.now at nest }
    ensures { (number : ℕ) → result ≡ outcome (read_message (length s.now) nest around.now (cursor at number s.now)) }
{
    let Some((word, rest)) = s.split_first() else {
        return Err(Refusal {
            question: 5,
            place: at,
        });
    };
    match ask_message(*word, at, nest, around)? {
        Arity::Leaf => Ok(at + 1),
        Arity::One => read_message(rest, at + 1, nest + 1, around),
        Arity::Two => {
            let next = read_message(rest, at + 1, nest + 1, around)?;
            read_message(&s[next - at..], next, nest + 1, around)
        }
    }
}

// The greatest of the names that the words say, 0 where there is none; name is what a word says, 0 for no name.
pub fn greatest<F: Fn(u32) -> u32>(words: &[u32], name: F) -> u32
    requires { F.IsAlwaysCallable name }
    ensures { (f : ℕ → ℕ) → ((w r : _) → F.post name w r → r ≡ f w) → result ≡ greatest_of f words.now }
{
    words.iter().fold(0, |greatest, w| greatest.max(name(*w)))
}

// The indices of the words around a word, innermost first, from first on: of the receipts around a message, or of the SOMEs
// around a rule. No heap: so an array that is filled from its end, and no Vec.
#[derive(Clone, Copy)]
pub struct Innermost<const N: usize> {
    pub indices: [u16; N],
    pub first: usize,
}

impl<const N: usize> Innermost<N> {
    // None around.
    pub fn none() -> Innermost<N>
        ensures indices { result.indices ≡ replicate N 0 }
        ensures first { result.first ≡ N }
    {
        Innermost {
            indices: [0; N],
            first: N,
        }
    }

    // Those around what stands in the word at the index at.
    pub fn with(self, at: u16) -> Innermost<N>
        requires some { 0 < self.first }
        requires inside { self.first ≤ N }
        ensures { Fronted at self.entry.first self.entry.indices result.first result.indices }
    {
        let mut inner = self;
        inner.first -= 1;
        inner.indices[inner.first] = at;
        inner
    }

    pub fn as_slice(&self) -> &[u16]
        requires { self.now.first ≤ N }
        ensures { result.now ≡ drop self.now.first self.now.indices }
    {
        let all = &self.indices[..];
        &all[self.first..]
    }
}
