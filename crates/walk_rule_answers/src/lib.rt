// What a rule word answers from the rule, the counts, the chosen names and the set of top parts alone (document 01, "The rule
// and its walk").
#![tactic(auto)]

ghost use Rattle.std.specs.Prelude.{◌≡◌, ◌+◌, ◌<◌, eqb, get_or};
ghost use Rattle.read_messages.specs.Words.{operand};
ghost use Rattle.read_rule_words.specs.ReadRule.{term_of};
ghost use Rattle.theory_decision.specs.Walk.{turned as reversed, says};
ghost use Rattle.walk_stages.specs.Visits.{count_of, walked_of, name_said};
ghost use Rattle.walk_rule_answers.specs.Visited.{VisitAsked, OneMoreVisit};
ghost use Rattle.walk_rule_answers.specs.ChosenNames.{ChosenAt, LastNameAsked};

use base_slices::wide;
use read_rule_words::{RuleTerm, term_of};
use walk_stages::{Counts, DEPTHS, Limits, PLACINGS, PROGRAM, RIGHTS, Walked};

// The counts after one more visit, with that many depths left, its own among them.
pub fn next_count(c: Counts, left: usize) -> Counts
    requires { VisitAsked c left }
    ensures { OneMoreVisit c left result }
{
    let depth = (DEPTHS + 1 - left) as u32;
    Counts {
        visits: c.visits + 1,
        deepest: depth.max(c.deepest),
    }
}

// Where the right rule stands of the rule that begins at that word.
pub fn right_rule(program: &[u32; PROGRAM], at: usize) -> usize
    requires { at < 256 }
    ensures { result ≡ get_or program.now (256 + at) 0 }
{
    wide(program[RIGHTS + at])
}

// Which of the rule's PLACED words that word is.
pub fn placing(program: &[u32; PROGRAM], at: usize) -> usize
    requires { at < 256 }
    ensures { result ≡ get_or program.now (512 + at) 0 }
{
    wide(program[PLACINGS + at])
}

// The last name that a SOME tries inside so many others: G + d, d being the SOMEs around, itself counted.
pub fn last_name(limits: Limits, somes: usize) -> u32
    requires { LastNameAsked limits somes }
    ensures { result ≡ limits.greatest + somes + 1 }
{
    limits.greatest + somes as u32 + 1
}

// Yes for no, and no for yes.
pub fn turned(w: Walked) -> Walked
    ensures { walked_of result ≡ reversed (walked_of w) }
{
    match w {
        Walked::Yes(c) => Walked::No(c),
        Walked::No(c) => Walked::Yes(c),
        Walked::Stopped(..) => w,
    }
}

// VOID: no parts.
pub fn void_rule(top: u64, c: Counts) -> Walked
    ensures { walked_of result ≡ says (eqb top 0) (count_of c) }
{
    if top == 0 {
        return Walked::Yes(c);
    }
    Walked::No(c)
}

// The name that a word of AT or PLACED says.
pub fn name_said(w: u32, chosen: &[u32; 256]) -> u32
    ensures { result ≡ name_said chosen.now (term_of (operand w)) }
{
    let t = term_of(w);
    match t {
        RuleTerm::Constant(n) => n,
        RuleTerm::Chosen(i) => chosen.get(i as usize).copied().unwrap_or(0),
    }
}

// The chosen names with n for the SOME at that index.
pub fn with_name(chosen: &[u32; 256], at: usize, n: u32) -> [u32; 256]
    requires { at < 256 }
    ensures { ChosenAt chosen.now at n result }
{
    let mut next = *chosen;
    next[at] = n;
    next
}
