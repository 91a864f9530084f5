// A visit at SOMETIME that keeps the moves by which it comes to its yes (document 02, Req 01). It answers as the walk's cycle
// does there, and stands outside of it: no other visit pays for what is kept.
#![tactic(auto)]

ghost use Rattle.std.specs.Prelude.{◌≡◌, ◌-◌, ◌≤◌, ◌<◌, length, set};
ghost use Rattle.walk_stages.specs.Visits.{Visitable};
ghost use Rattle.walk_itineraries.specs.Leading.{move_word, Begins, Leads as Guides};

use engine_state_arrays::StateArrays;
use read_messages::KIND_UNIT;
use walk_rule_answers::next_count;
use walk_stages::{Counts, DEPTHS, EARLY_END, NO_DEPTH, NO_VISIT, WORDS, Walked};
use walk_states::{Spot, Step, Walk, all_targets, next_state, next_turn};
use walk_visits::visit;

// What a visit at SOMETIME answers, and how many moves lead to its yes.
#[derive(Drop)]
pub struct Led {
    pub walked: Walked,
    pub count: usize,
}

// A visit at SOMETIME up to its first move: its stop, or what the visit of the inner rule answers. It stays a call: with it
// inlined, `lead` clears the room for its copy of the state at each visit, though the copy is written over it.
#[inline(never)]
fn begin(walk: &Walk, lent: &StateArrays, chosen: &[u32; 256], spot: Spot, c: Counts) -> Walked
    requires { (spot.left ≤ 256) × Visitable walk.now.script.now lent.now.sets lent.now.numbers spot.top spot.somes walk.now.limits }
    ensures { Begins walk.now.program.now walk.now.script.now lent.now.sets lent.now.numbers chosen.now spot.top spot.somes spot.left spot.at walk.now.limits c result }
{
    let visits = c.visits;
    let at = spot.at;
    let left = spot.left;
    if left == 0 {
        return Walked::Stopped(NO_DEPTH, at, visits);
    }
    if walk.limits.patience <= visits {
        return Walked::Stopped(NO_VISIT, at, visits);
    }
    if WORDS <= at {
        return Walked::Stopped(EARLY_END, at, visits);
    }
    let n = next_count(c, left);
    let mut below = spot;
    below.at = at + 1;
    below.left = left - 1;
    visit(walk, lent, chosen, below, n)
}

// The word of the actor's move to its target, put into the list at the index of the visit that makes it: so many depths are
// left at it, and the first visit's index is 0.
fn note_move(list: &mut [u32; 256], left: usize, actor: usize, target: usize)
    requires { (0 < left) × (left ≤ 256) × (actor < 64) × (target < 64) }
    ensures kept { length list.new ≡ length list.old }
    ensures noted { list.new ≡ set list.old (256 - left) (move_word actor target) }
{
    list[DEPTHS - left] = KIND_UNIT + (actor as u32) * 256 + target as u32;
}

// A visit at SOMETIME, as the walk's own. On yes the moves that lead to it stand in the list, each at the index of the visit
// that makes it.
pub fn lead(
    walk: &Walk,
    lent: &StateArrays,
    chosen: &[u32; 256],
    spot: Spot,
    c: Counts,
    list: &mut [u32; 256],
) -> Led
    requires { (spot.left ≤ 256) × (length list.old ≡ 256) × Visitable walk.now.script.now lent.now.sets lent.now.numbers spot.top spot.somes walk.now.limits }
    ensures kept { length list.new ≡ 256 }
    ensures guides { Guides walk.now.program.now walk.now.script.now lent.now.sets lent.now.numbers chosen.now spot.top spot.somes spot.left spot.at walk.now.limits c result.walked result.count list.new }
{
    let walked = begin(walk, lent, chosen, spot, c);
    let Walked::No(begun) = walked else {
        return Led { walked, count: 0 };
    };
    let mut targets: [u64; 64] = [0; 64];
    let homes = all_targets(lent, spot.top, walk.limits.limit, &mut targets);
    let mut now = begun;
    // An iterator of turns would hold the same two numbers and lend the targets: no plainer.
    let mut turn = next_turn(&targets, 0, 0, walk.limits.limit);
    while turn.rest != 0 {
        let a = turn.from - 1;
        let t = base_sets::first(turn.rest);
        let step = Step::Move(a, t);
        // The move is made on a copy of the state.
        let mut next = *lent;
        let mut there = spot;
        there.left = spot.left - 1;
        there.top = next_state(walk.script, &mut next, spot.top, &homes, step);
        let led = lead(walk, &next, chosen, there, now, list);
        let walked = led.walked;
        let Walked::No(c2) = walked else {
            note_move(list, spot.left, a, t);
            let count = led.count + 1;
            return Led { walked, count };
        };
        now = c2;
        turn = next_turn(&targets, turn.from, turn.rest, walk.limits.limit);
    }
    let walked = Walked::No(now);
    Led { walked, count: 0 }
}
