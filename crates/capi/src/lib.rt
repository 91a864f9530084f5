// The call for C and Rust.
#![tactic(auto)]

ghost use Rattle.std.specs.Prelude.{◌≡◌, get_or};
ghost use Rattle.call_answers.specs.Answering.{call_of};
ghost use Rattle.theory_call.specs.Standing.{MovesBounded};
ghost use Rattle.theory_call.specs.Itinerary.{Listed};
ghost use Rattle.host_answer_words.specs.Buffers.{returned, answered, buffer_after, Decided, WeighedBy, ReducedBy, ReturnedBy, ReadmittedBy, tree_words, count_told};

use checker::call;
use host_answer_words::tell;

// The whole call. Where `answer` has fewer than nine words, nothing is done.
#[unsafe(no_mangle)]
pub extern "C" fn skycorbel_call<'a, 'b, 'c, 'd>(
    script: &'a [u32],
    moves: &'a [u32],
    rule: &'a [u32],
    patience: u32,
    out: &'b mut [u32],
    list: &'d mut [u32],
    answer: &'c mut [u32],
) -> u32
    ensures returned { result ≡ returned answer.old }
    ensures answered { answer.new ≡ answered (call_of script.now moves.now rule.now patience out.old list.old) (count_told answer.new) answer.old }
    ensures written { out.new ≡ buffer_after (call_of script.now moves.now rule.now patience out.old list.old) answer.old }
    ensures untold { result ≡ 0 → answer.new ≡ answer.old }
    ensures unwritten { result ≡ 0 → out.new ≡ out.old }
    ensures unlisted { result ≡ 0 → list.new ≡ list.old }
    ensures decided { result ≡ 1 → Decided (call_of script.now moves.now rule.now patience out.old list.old) (get_or answer.new 0 0) }
    ensures bounded { result ≡ 1 → MovesBounded script.now (get_or answer.new 3 0) }
    ensures weighed { WeighedBy (call_of script.now moves.now rule.now patience out.old list.old) result (get_or answer.new 6 0) }
    ensures reduced { result ≡ 1 → ReducedBy (call_of script.now moves.now rule.now patience out.old list.old) (get_or answer.new 0 0) (get_or answer.new 3 0) }
    ensures reread { result ≡ 1 → ReturnedBy (call_of script.now moves.now rule.now patience out.old list.old) (get_or answer.new 0 0) (tree_words answer.new out.new) }
    ensures readmitted { result ≡ 1 → ReadmittedBy (get_or answer.new 0 0) (tree_words answer.new out.new) }
    ensures listed { result ≡ 1 → Listed (call_of script.now moves.now rule.now patience out.old list.old) (get_or answer.new 0 0 ≡ 2) (count_told answer.new) list.new }
{
    if answer.len() < 9 {
        return 0;
    }
    let a = call(script, moves, rule, patience, out, list);
    tell(a, answer);
    1
}
