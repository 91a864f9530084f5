// The words of a script: the questions that a word is asked where a part is expected, and the greatest name. Questions 2 and
// 4 of document 01.
#![tactic(auto)]

ghost use Rattle.std.specs.Prelude.{◌≡◌};
ghost use Rattle.read_script_words.specs.ScriptWords.{part_word, asked_part, script_name, greatest_name};

use read_messages::{KIND_UNIT, MOST_NESTING, NAME, Refusal, greatest};

// What a word is where a part is expected.
#[derive(Clone, Copy, Debug, PartialEq, Eq)]
pub enum PartWord {
    Close,
    Ambient,
    Action,
    Receipt,
    Output,
}

// The word w by its kind; its operand is zero.
#[tactic(auto, using(std::proofs::lemmas::Bool::Decides::nat_tests), unfolding(crate::specs::ScriptWords::part_word, read_messages::specs::Words::kind, read_messages::specs::Words::operand))]
fn part_word(w: u32) -> Option<PartWord>
    ensures { result ≡ part_word w }
{
    match (w / KIND_UNIT, w % KIND_UNIT) {
        (0, 0) => Some(PartWord::Close),
        (1, 0) => Some(PartWord::Ambient),
        (2, 0) => Some(PartWord::Action),
        (3, 0) => Some(PartWord::Receipt),
        (4, 0) => Some(PartWord::Output),
        _ => None,
    }
}

// Questions 2 and 4 for a word of that nesting at the index place.
#[tactic(auto, using(std::proofs::lemmas::Bool::Decides::nat_tests), unfolding(crate::specs::ScriptWords::asked_part))]
pub fn ask_part(w: u32, place: usize, nest: usize) -> Result<PartWord, Refusal>
    ensures { result ≡ asked_part place nest (part_word w) }
{
    let part = part_word(w).ok_or(Refusal { question: 2, place })?;
    if MOST_NESTING < nest {
        return Err(Refusal { question: 4, place });
    }
    Ok(part)
}

// The operand of a NAME word, 0 for any other.
#[tactic(auto, unfolding(crate::specs::ScriptWords::script_name, read_messages::specs::Words::kind, read_messages::specs::Words::operand))]
fn script_name(w: u32) -> u32
    ensures { result ≡ script_name w }
{
    if w / KIND_UNIT == NAME {
        w % KIND_UNIT
    } else {
        0
    }
}

// The greatest name among the NAME words, 0 if there is none.
pub fn greatest_name(s: &[u32]) -> u32
    ensures { result ≡ greatest_name s.now }
{
    greatest(s, script_name)
}
