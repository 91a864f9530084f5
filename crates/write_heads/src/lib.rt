// What is written in front of a part's body: its word and its message, an action's as its items; and the receipts around the
// body, which give its variables their new indices.
#![tactic(auto)]

ghost use Rattle.std.specs.Prelude.{◌≡◌, List, ℕ};
ghost use Rattle.read_messages.specs.Words.{word};
ghost use Rattle.read_scripts.specs.Tree.{kind_number};
ghost use Rattle.engine_bindings.specs.Bindings.{bindings_in};
ghost use Rattle.theory_closures.specs.Closure.{unfold_head};
ghost use Rattle.engine_states.specs.Represents.{head_of};
ghost use Rattle.theory_written_trees.specs.Write.{write_head};
ghost use Rattle.write_messages.specs.Buffer.{Wrote};
ghost use Rattle.write_messages.specs.Indices.{indices_in};
ghost use Rattle.write_heads.specs.Around.{receipts_in, indices_of, Right, NoneAround, BodyAround};
ghost use Rattle.write_heads.specs.Asked.{AroundAsked, LabelAsked, HeadAsked};
ghost use Rattle.write_heads.specs.Heads.{has_body, write_label};

use base_slices::wide;
use engine_message_words::Binding;
use read_scripts::{ACTION, AMBIENT, RECEIPT};
use write_messages::{Receipt, write_items, write_message, write_word};

// The words in front of parts, by their kinds: the operand of each is 0.
const AMBIENT_WORD: u32 = 0x10000000;

const ACTION_WORD: u32 = 0x20000000;

const RECEIPT_WORD: u32 = 0x30000000;

const OUTPUT_WORD: u32 = 0x40000000;

// How many receipts can be around a part: as many as there are parts.
const MOST_AROUND: usize = 64;

// The receipts around what is written: the rows from first on, innermost first. No heap: so an array that is filled from its
// end, and no Vec.
#[derive(Clone, Copy)]
pub struct Around {
    pub rows: [Receipt; 64],
    pub first: usize,
}

// The receipts around, as they are lent.
fn receipts_in(around: &Around) -> &[Receipt]
    requires { Right around.now }
    ensures { result.now ≡ receipts_in around.now }
{
    &around.rows[around.first..]
}

// Whether the body of a part of that kind is written: an output has none.
#[tactic(auto, using(std::proofs::lemmas::Bool::Decides::nat_tests), unfolding(crate::specs::Heads::has_body, engine_states::specs::Represents::head_of))]
pub fn has_body(kind: u8) -> bool
    ensures { (script : List ℕ) (start offset : ℕ) → result ≡ has_body (head_of script kind start offset) }
{
    matches!(kind, AMBIENT | ACTION | RECEIPT)
}

// No receipts around.
pub fn nothing_around() -> Around
    ensures { NoneAround result }
{
    Around {
        rows: [Receipt {
            variable: 0,
            index: 0,
        }; 64],
        first: MOST_AROUND,
    }
}

// The receipts around the body of a part of that kind and start, whose word has the index.
pub fn around_body(around: &Around, kind: u8, start: u32, index: u32) -> Around
    requires { AroundAsked around.now start index }
    ensures { BodyAround around.now kind start index result }
{
    let mut r = *around;
    if kind == RECEIPT {
        let next = around.first - 1;
        r.rows[next] = Receipt {
            variable: start,
            index,
        };
        r.first = next;
    }
    r
}

// The word of a part of that kind.
#[tactic(auto, using(std::proofs::lemmas::Bool::Decides::nat_tests), unfolding(read_scripts::specs::Tree::kind_number, read_messages::specs::Words::word, engine_states::specs::Represents::head_of))]
fn head_word(kind: u8) -> u32
    ensures { (script : List ℕ) (start offset : ℕ) → result ≡ word (kind_number (head_of script kind start offset)) 0 }
{
    match kind {
        AMBIENT => AMBIENT_WORD,
        ACTION => ACTION_WORD,
        RECEIPT => RECEIPT_WORD,
        _ => OUTPUT_WORD,
    }
}

// Writes a part's message, if it has one: an action's as its items.
fn write_label(
    script: &[u32],
    kind: u8,
    start: u32,
    offset: u32,
    bindings: &[Binding],
    receipts: &[Receipt],
    out: &mut [u32],
) -> usize
    requires { LabelAsked script.now start offset bindings.now receipts.now out.old }
    ensures { Wrote (write_label (indices_in receipts.now) (unfold_head (bindings_in script.now bindings.now) (head_of script.now kind start offset))) out.old out.new result }
{
    let at = wide(start);
    match kind {
        ACTION => write_items(script, at, offset, bindings, receipts, out),
        RECEIPT => 0,
        _ => write_message(script, at, bindings, receipts, out),
    }
}

// Writes the words in front of a part's body.
pub fn write_head(
    script: &[u32],
    kind: u8,
    start: u32,
    offset: u32,
    bindings: &[Binding],
    around: &Around,
    out: &mut [u32],
) -> usize
    requires { HeadAsked script.now start offset bindings.now around.now out.old }
    ensures { Wrote (write_head (indices_of around.now) (unfold_head (bindings_in script.now bindings.now) (head_of script.now kind start offset))) out.old out.new result }
{
    let m = write_word(head_word(kind), out);
    let receipts = receipts_in(around);
    write_label(
        script,
        kind,
        start,
        offset,
        bindings,
        receipts,
        &mut out[m..],
    ) + m
}
