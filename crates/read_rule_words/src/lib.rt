// The words of a rule: the questions that one word is asked, the term that it says and the greatest name. Questions 8,
// 9 and 10 of document 01.
#![tactic(auto)]

ghost use Rattle.std.specs.Prelude.{◌≡◌, ◌+◌, ◌≤◌, ◌<◌, length};
ghost use Rattle.read_messages.specs.Words.{operand};
ghost use Rattle.read_rule_words.specs.Rule.{rule_name, greatest_rule_name};
ghost use Rattle.read_rule_words.specs.ReadRule.{rule_kind, term_of};
ghost use Rattle.read_rule_words.specs.RuleWords.{term_word, levelled, asked_plain, asked_term, asked};

use read_messages::{KIND_UNIT, MOST_NAME, Refusal, greatest, is_around};

// The kind of a word that says where a rule holds; its operand is a term.
const AT: u32 = 4;

// The kind of a word that places a part; its operand is a term.
const PLACED: u32 = 9;

// An operand with bit 27 set is this and the index of a SOME.
const CHOSEN: u32 = 134217728;

// Question 10: the most rules around a word.
const MOST_AROUND: usize = 64;

// Question 10: the most SOMEs around a word, itself counted.
pub const MOST_SOMES: usize = 8;

// What a word of AT or PLACED says: a name, or the index of the SOME whose name it is.
#[derive(Clone, Copy, Debug, PartialEq, Eq)]
pub enum RuleTerm {
    Constant(u32),
    Chosen(u32),
}

// What stands inside the rule that begins with a word: no rule, one, two, one under a SOME, or one under a PLACED.
#[derive(Clone, Copy, Debug, PartialEq, Eq)]
pub enum RuleShape {
    Leaf,
    One,
    Two,
    Choice,
    Place,
}

// The term of a word of AT or PLACED.
#[tactic(auto, using(std::proofs::lemmas::Bool::Decides::nat_tests), unfolding(crate::specs::RuleWords::term_word, crate::specs::ReadRule::term_of, crate::specs::ReadRule::is_chosen, read_messages::specs::Words::operand))]
pub fn term_of(w: u32) -> RuleTerm
    ensures { result ≡ term_word (term_of (operand w)) }
{
    let n = w % KIND_UNIT;
    if CHOSEN <= n {
        RuleTerm::Chosen(n - CHOSEN)
    } else {
        RuleTerm::Constant(n)
    }
}

// Question 10: at most 64 rules around, and at most 8 SOMEs.
#[tactic(auto, using(std::proofs::lemmas::Bool::Decides::nat_tests), unfolding(crate::specs::RuleWords::levelled))]
fn within(place: usize, around: usize, somes: usize, shape: RuleShape) -> Result<RuleShape, Refusal>
    ensures { result ≡ levelled place around somes shape }
{
    if MOST_AROUND < around || MOST_SOMES < somes {
        return Err(Refusal {
            question: 10,
            place,
        });
    }
    Ok(shape)
}

// Questions 8 and 10 for a word whose operand is zero.
#[tactic(auto, using(std::proofs::lemmas::Bool::Decides::nat_tests), unfolding(crate::specs::RuleWords::asked_plain, read_messages::specs::Words::operand))]
fn ask_plain(
    w: u32,
    place: usize,
    around: usize,
    somes: usize,
    shape: RuleShape,
) -> Result<RuleShape, Refusal>
    ensures { result ≡ asked_plain place around somes (operand w) shape }
{
    if w % KIND_UNIT != 0 {
        return Err(Refusal { question: 8, place });
    }
    within(place, around, somes, shape)
}

// Questions 8, 9 and 10 for a word of AT or PLACED.
#[tactic(auto, using(std::proofs::lemmas::Bool::Decides::nat_tests), unfolding(crate::specs::RuleWords::asked_term, crate::specs::RuleWords::term_word, crate::specs::ReadRule::term_of, crate::specs::ReadRule::is_chosen, crate::specs::ReadRule::term_bound, read_messages::specs::Words::name_fits))]
fn ask_term(
    w: u32,
    place: usize,
    around: usize,
    somes: &[u16],
    shape: RuleShape,
) -> Result<RuleShape, Refusal>
    ensures { result ≡ asked_term place around somes.now (operand w) shape }
{
    match term_of(w) {
        RuleTerm::Constant(1..=MOST_NAME) => {}
        RuleTerm::Constant(_) => return Err(Refusal { question: 8, place }),
        RuleTerm::Chosen(index) => {
            if !is_around(somes, index) {
                return Err(Refusal { question: 9, place });
            }
        }
    }
    within(place, around, somes.len(), shape)
}

// Questions 8, 9 and 10 for a word at the index place with so many rules around it.
#[tactic(auto, using(std::proofs::lemmas::Bool::Decides::nat_tests), unfolding(crate::specs::RuleWords::asked, crate::specs::RuleWords::asked_plain, crate::specs::RuleWords::asked_term, crate::specs::RuleWords::follow, crate::specs::ReadRule::rule_kind, crate::specs::ReadRule::operand_fits, crate::specs::ReadRule::bound, crate::specs::ReadRule::somes_with, read_messages::specs::Words::kind))]
pub fn ask_rule(w: u32, place: usize, around: usize, somes: &[u16]) -> Result<RuleShape, Refusal>
    requires { length somes.now ≤ 8 }
    ensures { result ≡ asked place around somes.now (rule_kind w) (operand w) }
{
    let n = somes.len();
    match w / KIND_UNIT {
        0 | 3 => ask_plain(w, place, around, n, RuleShape::Leaf),
        1 | 7 | 8 => ask_plain(w, place, around, n, RuleShape::One),
        2 | 5 => ask_plain(w, place, around, n, RuleShape::Two),
        AT => ask_term(w, place, around, somes, RuleShape::One),
        6 => ask_plain(w, place, around, n + 1, RuleShape::Choice),
        PLACED => ask_term(w, place, around, somes, RuleShape::Place),
        10.. => Err(Refusal { question: 8, place }),
    }
}

// The plain operand of a word of AT or PLACED, 0 for any other.
#[tactic(auto, using(std::proofs::lemmas::Bool::Decides::nat_tests), unfolding(crate::specs::Rule::rule_name, read_messages::specs::Words::kind, read_messages::specs::Words::operand))]
fn rule_name(w: u32) -> u32
    ensures { result ≡ rule_name w }
{
    match (w / KIND_UNIT, w % KIND_UNIT) {
        (AT | PLACED, n) if n < CHOSEN => n,
        _ => 0,
    }
}

// The greatest name among the plain operands of AT and PLACED, 0 if there is none.
pub fn greatest_rule_name(rule: &[u32]) -> u32
    ensures { result ≡ greatest_rule_name rule.now }
{
    greatest(rule, rule_name)
}
