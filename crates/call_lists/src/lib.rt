// The list of moves (document 01, "Questions at the door"): each word is asked questions 15 and 16 and its move is
// made, on a state that is lent.
#![tactic(auto)]

ghost use Rattle.std.specs.Prelude.{◌≡◌};
ghost use Rattle.theory_call.specs.Call.{actor, target, move_fits};
ghost use Rattle.call_lists.specs.Running.{Runnable, ListRan};

use engine_moves::make_if_possible;
use engine_state_arrays::StateArrays;
use read_messages::{KIND_UNIT, Refusal};

// The actor and the target of a move word.
fn actor_of(w: u32) -> usize
    ensures { result ≡ actor w }
{
    (w % KIND_UNIT / 256) as usize
}

fn target_of(w: u32) -> usize
    ensures { result ≡ target w }
{
    (w % KIND_UNIT % 256) as usize
}

// Question 15 of a word.
fn move_fits(w: u32, parts: usize) -> bool
    ensures { result ≡ move_fits parts w }
{
    if w / KIND_UNIT != 1 {
        return false;
    }
    if w % KIND_UNIT >= 65536 {
        return false;
    }
    if actor_of(w) >= parts {
        return false;
    }
    target_of(w) < parts
}

// The moves of the list, one by one, made on the state that is lent.
pub fn run_list(
    script: &[u32],
    lent: &mut StateArrays,
    moves: &[u32],
    parts: usize,
) -> Result<(), Refusal>
    requires { Runnable script.now lent.old.sets lent.old.numbers moves.now parts }
    ensures { ListRan script.now lent.old.sets lent.old.numbers moves.now parts lent.new.sets lent.new.numbers result }
{
    for (i, &w) in moves.iter().enumerate() {
        if !move_fits(w, parts) {
            return Err(Refusal {
                question: 15,
                place: i,
            });
        }
        if !make_if_possible(script, lent, actor_of(w), target_of(w)) {
            return Err(Refusal {
                question: 16,
                place: i,
            });
        }
    }
    Ok(())
}
