// An answer as nine words.
#![tactic(auto)]

ghost use Rattle.std.specs.Prelude.{◌≡◌, List, ◌++◌, ℕ, drop};
ghost use Rattle.call_answers.specs.Answering.{verdict_of, answer_of};
ghost use Rattle.host_answer_words.specs.Told.{said_of, question_of, place_of, told, Tellable};

use call_answers::{Answer, Verdict};

// Yes, no or refused, as the first word of an answer has it.
#[tactic(auto, unfolding(crate::specs::Told::said_of, call_answers::specs::Answering::verdict_of))]
fn said(v: Verdict) -> u32
    ensures { result ≡ said_of (verdict_of v) }
{
    match v {
        Verdict::Refused(_) => 0,
        Verdict::No => 1,
        Verdict::Yes => 2,
    }
}

// The number of the question that refuses, 0 where none does.
#[tactic(auto, unfolding(crate::specs::Told::question_of, call_answers::specs::Answering::verdict_of))]
fn question_of(v: Verdict) -> u32
    ensures { result ≡ question_of (verdict_of v) }
{
    match v {
        Verdict::Refused(first_no) => first_no.question,
        Verdict::No | Verdict::Yes => 0,
    }
}

// Its place, 0 where none refuses.
#[tactic(auto, unfolding(crate::specs::Told::place_of, call_answers::specs::Answering::verdict_of))]
fn place_of(v: Verdict) -> usize
    ensures { result ≡ place_of (verdict_of v) }
{
    match v {
        Verdict::Refused(first_no) => first_no.place,
        Verdict::No | Verdict::Yes => 0,
    }
}

// The nine words of an answer.
pub fn tell(a: Answer, answer: &mut [u32])
    requires { Tellable a answer.old }
    ensures { (buffer : List ℕ) → answer.new ≡ told (answer_of a buffer) a.count ++ drop 9 answer.old }
{
    let verdict = a.verdict;
    answer[0] = said(verdict);
    answer[1] = question_of(verdict);
    answer[2] = place_of(verdict) as u32;
    answer[3] = a.moves as u32;
    answer[4] = a.visits;
    answer[5] = a.deepest;
    answer[6] = a.weight as u32;
    answer[7] = a.words;
    answer[8] = a.count as u32;
}
