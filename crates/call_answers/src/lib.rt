// What a call answers, and what it asks of numbers and names alone: questions 13, 14 and 21, and G.
#![tactic(auto)]

ghost use Rattle.std.specs.Prelude.{◌≡◌};
ghost use Rattle.theory_call.specs.Call.{accepted, refusal, asking, terms};
ghost use Rattle.call_answers.specs.Answering.{verdict_of, asked_of, refused_by, Refusing, Greatest};

use read_messages::Refusal;
use read_rule_words::greatest_rule_name;
use read_script_words::greatest_name;

// The most visits that may be asked for, the most moves of a list, and the least words for an itinerary: questions 13, 14
// and 21.
const MOST_PATIENCE: u32 = 16777216;

const MOST_MOVES: usize = 4096;

const LEAST_LIST: usize = 256;

// Yes or no, or the question that refuses the call, and its place. Three cases, as the definition has them
// (verdict_of): as a Result of yes or no it would read no plainer.
#[derive(Clone, Copy)]
pub enum Verdict {
    Yes,
    No,
    Refused(Refusal),
}

// What a call answers beside the buffers; `count` is that of the itinerary's moves.
#[derive(Clone, Copy)]
pub struct Answer {
    pub verdict: Verdict,
    pub moves: usize,
    pub visits: u32,
    pub deepest: u32,
    pub weight: usize,
    pub words: u32,
    pub count: usize,
}

// The answer to a call that is refused by the first no.
pub fn refused(first_no: Refusal, moves: usize, visits: u32) -> Answer
    ensures { Refusing result (refusal first_no.question first_no.place moves visits) }
{
    Answer {
        verdict: Verdict::Refused(first_no),
        moves,
        visits,
        deepest: 0,
        weight: 0,
        words: 0,
        count: 0,
    }
}

// A reader's refusal, handed up as the call's: no move is made, and no visit. What was read to its end is no refusal, and
// would be told as one by no question.
pub fn handed_up(outcome: Result<usize, Refusal>) -> Answer
    ensures { Refusing result (refused_by outcome) }
{
    match outcome {
        Err(first_no) => refused(first_no, 0, 0),
        Ok(_) => refused(
            Refusal {
                question: 0,
                place: 0,
            },
            0,
            0,
        ),
    }
}

// Yes or no.
pub fn said(yes: bool) -> Verdict
    ensures { verdict_of result ≡ accepted yes }
{
    if yes { Verdict::Yes } else { Verdict::No }
}

// The questions that ask nothing but numbers, in their order: 13, 14 and 21.
pub fn ask_terms(patience: u32, moves: usize, list: usize) -> Result<(), Refusal>
    ensures { result ≡ asked_of (asking (terms patience moves list)) }
{
    if patience == 0 || MOST_PATIENCE < patience {
        return Err(Refusal {
            question: 13,
            place: 0,
        });
    }
    if MOST_MOVES < moves {
        return Err(Refusal {
            question: 14,
            place: 0,
        });
    }
    if list < LEAST_LIST {
        return Err(Refusal {
            question: 21,
            place: 0,
        });
    }
    Ok(())
}

// "G the greatest name in script and rule (0 if none)"
pub fn greatest(script: &[u32], rule: &[u32]) -> u32
    ensures { Greatest script.now rule.now result }
{
    greatest_name(script).max(greatest_rule_name(rule))
}
