// Answers as text, put into a lent buffer piece by piece, as the functions of program_digits put them.
#![tactic(auto)]

ghost use Rattle.std.specs.Prelude.{◌++◌, take};
ghost use Rattle.call_answers.specs.Answering.{answer_of};
ghost use Rattle.program_digits.specs.Digits.{lines, decimal, Puts};
ghost use Rattle.program_text.specs.Text.{refusal_text, unfit_text, counts_text, answer_text};

use base_slices::head;
use call_answers::{Answer, Verdict};
use program_digits::{put_byte, put_bytes, put_decimal, put_words};
use read_messages::Refusal;

// "a refusal as the one line `refused`, number, `at`, place"
fn put_refusal(text: &mut [u8], first_no: Refusal) -> usize
    ensures { Puts text.old text.new 0 result (refusal_text first_no.question first_no.place) }
{
    let a = put_bytes(text, 0, b"refused ");
    let b = put_decimal(text, a, first_no.question as u64);
    let c = put_bytes(text, b, b" at ");
    let d = put_decimal(text, c, first_no.place as u64);
    put_byte(text, d, b'\n')
}

// The question whether an input fits.
const INPUT_QUESTION: u32 = 20;

// Question 20, where it is no.
pub fn put_unfit(text: &mut [u8]) -> usize
    ensures { Puts text.old text.new 0 result unfit_text }
{
    put_refusal(
        text,
        Refusal {
            question: INPUT_QUESTION,
            place: 0,
        },
    )
}

// A count behind its name.
fn put_count(text: &mut [u8], at: usize, name: &[u8], count: u64) -> usize
    ensures { Puts text.old text.new at result (name.now ++ decimal count) }
{
    let next = put_bytes(text, at, name);
    put_decimal(text, next, count)
}

// The counts of an answer, behind its yes or no.
fn put_counts(text: &mut [u8], at: usize, a: Answer) -> usize
    ensures { Puts text.old text.new at result (counts_text a.moves a.visits a.deepest a.weight a.words) }
{
    let b = put_count(text, at, b" moves ", a.moves as u64);
    let c = put_count(text, b, b" visits ", a.visits as u64);
    let d = put_count(text, c, b" deepest ", a.deepest as u64);
    let e = put_count(text, d, b" weight ", a.weight as u64);
    let f = put_count(text, e, b" words ", a.words as u64);
    put_byte(text, f, b'\n')
}

// The line of a yes or no, then "the tree's words one a line"
fn put_said(text: &mut [u8], said: &[u8], a: Answer, out: &[u32]) -> usize
    ensures { Puts text.old text.new 0 result (said.now ++ counts_text a.moves a.visits a.deepest a.weight a.words ++ lines (take a.words out.now)) }
{
    let b = put_bytes(text, 0, said);
    let c = put_counts(text, b, a);
    put_words(text, c, head(out, a.words as usize))
}

// An answer as text.
#[tactic(auto, unfolding(call_answers::specs::Answering::verdict_of, call_answers::specs::Answering::answer_of, crate::specs::Text::said_text, crate::specs::Text::verdict_text))]
pub fn put_answer(text: &mut [u8], a: Answer, out: &[u32]) -> usize
    ensures { Puts text.old text.new 0 result (answer_text (answer_of a out.now)) }
{
    let verdict = a.verdict;
    match verdict {
        Verdict::Yes => put_said(text, b"yes", a, out),
        Verdict::No => put_said(text, b"no", a, out),
        Verdict::Refused(first_no) => put_refusal(text, first_no),
    }
}
