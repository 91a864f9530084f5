// From the words of an input to the text of the reply: the lists that it counts, lent to the call, and the call's
// answer, or that the input does not fit.
#![tactic(auto)]

ghost use Rattle.std.specs.Prelude.{◌≡◌, MatchOption};
ghost use Rattle.program_digits.specs.Digits.{Puts};
ghost use Rattle.program_replies.specs.Reply.{counted, call_reply, rule_reply, moves_reply, script_reply, words_reply};

use checker::call;
use program_text::{put_answer, put_unfit};

// "It lends 4,096 words."
const OUT_WORDS: usize = 4096;

// And 256 for an itinerary, which is not printed.
const LIST_WORDS: usize = 256;

// The words that a count at the start of a slice counts, and those behind them; none where there are not so many.
#[tactic(auto, unfolding(crate::specs::Reply::counted))]
fn read_count(s: &[u32]) -> Option<(&[u32], &[u32])>
    ensures { MatchOption result (counted s.now ≡ None) (λ p. counted s.now ≡ Some (p.0.now, p.1.now)) }
{
    let (n, rest) = s.split_first()?;
    rest.split_at_checked(*n as usize)
}

// The text of the call's answer.
fn put_call(script: &[u32], moves: &[u32], rule: &[u32], patience: u32, text: &mut [u8]) -> usize
    ensures { Puts text.old text.new 0 result (call_reply script.now moves.now rule.now patience) }
{
    let mut out = [0u32; OUT_WORDS];
    let mut list = [0u32; LIST_WORDS];
    let a = call(script, moves, rule, patience, &mut out, &mut list);
    put_answer(text, a, &out)
}

// What stands behind the rule: "patience, filling the input exactly".
#[tactic(auto, unfolding(crate::specs::Reply::rule_reply))]
fn reply_with_rule(script: &[u32], moves: &[u32], rule: &[u32], s: &[u32], text: &mut [u8]) -> usize
    ensures { Puts text.old text.new 0 result (rule_reply script.now moves.now rule.now s.now) }
{
    let [patience] = s else {
        return put_unfit(text);
    };
    put_call(script, moves, rule, *patience, text)
}

// "rule count, rule"
#[tactic(auto, unfolding(crate::specs::Reply::replied))]
fn reply_with_moves(script: &[u32], moves: &[u32], s: &[u32], text: &mut [u8]) -> usize
    ensures { Puts text.old text.new 0 result (moves_reply script.now moves.now s.now) }
{
    let Some((rule, rest)) = read_count(s) else {
        return put_unfit(text);
    };
    reply_with_rule(script, moves, rule, rest, text)
}

// "move count, moves"
#[tactic(auto, unfolding(crate::specs::Reply::replied))]
fn reply_with_script(script: &[u32], s: &[u32], text: &mut [u8]) -> usize
    ensures { Puts text.old text.new 0 result (script_reply script.now s.now) }
{
    let Some((moves, rest)) = read_count(s) else {
        return put_unfit(text);
    };
    reply_with_moves(script, moves, rest, text)
}

// "script count, script"
#[tactic(auto, unfolding(crate::specs::Reply::replied))]
pub fn reply_to_words(s: &[u32], text: &mut [u8]) -> usize
    ensures { Puts text.old text.new 0 result (words_reply s.now) }
{
    let Some((script, rest)) = read_count(s) else {
        return put_unfit(text);
    };
    reply_with_script(script, rest, text)
}
