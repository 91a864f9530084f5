// The call.
#![tactic(auto)]

ghost use Rattle.std.specs.Prelude.{◌≡◌, List, [], ℕ, length, take, true};
ghost use Rattle.theory_closures.specs.Closure.{Closure, unfolded};
ghost use Rattle.engine_states.specs.Represents.{bound_in, Represents};
ghost use Rattle.walk_stages.specs.Visits.{count_of, walked_of};
ghost use Rattle.theory_written_trees.specs.Write.{write};
ghost use Rattle.write_trees.specs.Room.{Fitted};
ghost use Rattle.theory_decision.specs.Walk.{says};
ghost use Rattle.theory_call.specs.Call.{accepted, answer};
ghost use Rattle.theory_call.specs.Itinerary.{Listed};
ghost use Rattle.read_rules.specs.declared.RuleTable.{RuleTable};
ghost use Rattle.call_answers.specs.Answering.{verdict_of, answer_of, call_of, CallGives};
ghost use Rattle.theory_call.specs.Standing.{Decides, Reduces, Returned, Readmitted, MovesBounded, Weighed};
ghost use Rattle.checker.specs.Calling.{call_by, ScriptHeld, BothHeld, Entered, StateHeld, Writable, Walkable, WalkSays, Concludable, ComesTo};

use call_answers::{Answer, ask_terms, greatest, handed_up, refused, said};
use call_itineraries::with_itinerary;
use call_lists::run_list;
use engine_settling::first_state;
use engine_state_arrays::{TOP, from_arrays, to_arrays};
use engine_states::{State, weigh};
use read_messages::Refusal;
use read_rules::{RuleTable, read_whole_rule};
use read_scripts::{Table, read_script};
use walk_itineraries::Led;
use walk_rules::walk_rule;
use walk_stages::{Counts, Limits, Walked};
use write_counts::Standing;
use write_trees::write_tree;

// What a host asks of a call: about which script, after which moves, whether which rule holds, and how many visits it allows.
#[derive(Clone, Copy)]
struct Request<'a> {
    script: &'a [u32],
    moves: &'a [u32],
    rule: &'a [u32],
    patience: u32,
}

// The standing tree written into the buffer, where it fits.
fn write_state(
    script: &[u32],
    parts: &Table,
    state: &State,
    out: &mut [u32],
) -> Result<u32, Refusal>
    requires { Writable script.now parts.now.kinds parts.now.starts state.now }
    ensures { (weight spent : ℕ) (b : Closure) → Represents script.now parts.now.kinds parts.now.starts weight spent state.now b → Fitted (write [] 0 (unfolded (bound_in script.now state.now) b)) out.old out.new result }
{
    let tree = Standing {
        script,
        kids: &state.kids,
        kinds: &parts.kinds,
        starts: &parts.starts,
        offsets: &state.offsets,
        bindings: state.bindings.held(),
    };
    write_tree(&tree, out)
}

// Question 19, and the answer where it is yes: the tree is written, and everything counted.
fn finish(
    script: &[u32],
    parts: &Table,
    state: State,
    moves: usize,
    yes: bool,
    counts: Counts,
    out: &mut [u32],
) -> Answer
    requires { Writable script.now parts.now.kinds parts.now.starts state }
    ensures { ComesTo script.now parts.now.kinds parts.now.starts state moves out.old out.new result (says yes (count_of counts)) }
{
    match write_state(script, parts, &state, out) {
        Err(first_no) => refused(first_no, moves, counts.visits),
        Ok(words) => Answer {
            verdict: said(yes),
            moves,
            visits: counts.visits,
            deepest: counts.deepest,
            weight: weigh(state),
            words,
            count: 0,
        },
    }
}

// What follows the walk.
fn after_walk(
    script: &[u32],
    parts: &Table,
    state: &State,
    moves: usize,
    w: Walked,
    out: &mut [u32],
) -> Answer
    requires { Writable script.now parts.now.kinds parts.now.starts state.now }
    ensures { ComesTo script.now parts.now.kinds parts.now.starts state.now moves out.old out.new result (walked_of w) }
{
    match w {
        Walked::Yes(counts) => finish(script, parts, *state, moves, true, counts, out),
        Walked::No(counts) => finish(script, parts, *state, moves, false, counts, out),
        Walked::Stopped(question, place, visits) => {
            refused(Refusal { question, place }, moves, visits)
        }
    }
}

// The walk on the tree that stands after the moves; where it says yes to SOMETIME, the moves that lead there are put into
// `found`.
fn walk_standing(
    request: &Request,
    parts: &Table,
    state: &State,
    table: RuleTable,
    found: &mut [u32; 256],
) -> Led
    requires { Walkable request.now.script.now parts.now table state.now × (length found.old ≡ 256) }
    ensures { (moves list : List ℕ) (S : StateHeld request.now.script.now moves request.now.rule.now request.now.patience list parts.now table state.now) → WalkSays S result.walked result.count found.new }
{
    let limits = Limits {
        patience: request.patience,
        greatest: greatest(request.script, request.rule),
        parts: parts.count,
        limit: parts.count + table.count,
    };
    walk_rule(
        request.rule,
        table,
        request.script,
        parts.kinds,
        parts.starts,
        *state,
        limits,
        found,
    )
}

// What follows the walk: question 19, the answer, and the itinerary of a yes.
fn conclude(
    script: &[u32],
    parts: &Table,
    state: &State,
    moves: usize,
    led: Led,
    found: &[u32; 256],
    out: &mut [u32],
    list: &mut [u32],
) -> Answer
    requires { Concludable script.now parts.now state.now led.count found.now list.old }
    ensures { (made rule : List ℕ) (patience : ℕ) (table : RuleTable) (S : StateHeld script.now made rule patience list.old parts.now table state.now) → moves ≡ length made → WalkSays S led.walked led.count found.now → CallGives (call_of script.now made rule patience out.old list.old) result out.new list.new }
{
    let a = after_walk(script, parts, state, moves, led.walked, out);
    with_itinerary(a, led.count, found, list)
}

// Questions 15 and 16 and the moves, of a call whose script and rule are read and whose numbers are let in.
fn with_terms(
    request: &Request,
    parts: &Table,
    table: RuleTable,
    out: &mut [u32],
    list: &mut [u32],
) -> Answer
    requires { Entered request.now.script.now request.now.moves.now request.now.rule.now request.now.patience list.old parts.now table }
    ensures { CallGives (call_by request.now out.old list.old) result out.new list.new }
{
    let script = request.script;
    let begun = first_state(script, &parts.kinds, &parts.starts, parts.kids);
    let mut lent = to_arrays(parts.kinds, parts.starts, begun);
    if let Err(first_no) = run_list(script, &mut lent, request.moves, parts.count) {
        return refused(first_no, first_no.place, 0);
    }
    let top = lent.sets[TOP];
    let after = from_arrays(&lent, top);
    let mut found: [u32; 256] = [0; 256];
    let led = walk_standing(request, parts, &after.state, table, &mut found);
    conclude(
        script,
        parts,
        &after.state,
        request.moves.len(),
        led,
        &found,
        out,
        list,
    )
}

// Questions 13 to 19 and 21, of a call whose script and rule are read.
fn with_rule(
    request: &Request,
    parts: &Table,
    table: RuleTable,
    out: &mut [u32],
    list: &mut [u32],
) -> Answer
    requires { BothHeld request.now.script.now request.now.rule.now parts.now table }
    ensures { CallGives (call_by request.now out.old list.old) result out.new list.new }
{
    match ask_terms(request.patience, request.moves.len(), list.len()) {
        Err(first_no) => handed_up(Err(first_no)),
        Ok(()) => with_terms(request, parts, table, out, list),
    }
}

// Questions 7 to 19 and 21, of a call whose script is read.
fn with_script(request: &Request, parts: &Table, out: &mut [u32], list: &mut [u32]) -> Answer
    requires { ScriptHeld request.now.script.now parts.now }
    ensures { CallGives (call_by request.now out.old list.old) result out.new list.new }
{
    match read_whole_rule(request.rule, parts.count) {
        Err(first_no) => handed_up(Err(first_no)),
        Ok(table) => with_rule(request, parts, table, out, list),
    }
}

// The whole call: the questions at the door in their order, the moves, the walk, the tree that then stands, and the itinerary
// of a yes.
pub fn call(
    script: &[u32],
    moves: &[u32],
    rule: &[u32],
    patience: u32,
    out: &mut [u32],
    list: &mut [u32],
) -> Answer
    ensures answered { answer_of result out.new ≡ answer (call_of script.now moves.now rule.now patience out.old list.old) }
    ensures decided { Decides (call_of script.now moves.now rule.now patience out.old list.old) (verdict_of result.verdict) }
    ensures bounded { MovesBounded script.now result.moves }
    ensures weighed { Weighed (call_of script.now moves.now rule.now patience out.old list.old) result.weight }
    ensures reduced { Reduces (call_of script.now moves.now rule.now patience out.old list.old) (verdict_of result.verdict) result.moves }
    ensures reread { Returned (call_of script.now moves.now rule.now patience out.old list.old) (verdict_of result.verdict) (take result.words out.new) }
    ensures readmitted { Readmitted (verdict_of result.verdict) (take result.words out.new) }
    ensures listed { Listed (call_of script.now moves.now rule.now patience out.old list.old) (verdict_of result.verdict ≡ accepted true) result.count list.new }
{
    let request = Request {
        script,
        moves,
        rule,
        patience,
    };
    match read_script(script) {
        Err(first_no) => handed_up(Err(first_no)),
        Ok(parts) => with_script(&request, &parts, out, list),
    }
}
