// The walk of a rule over the process that a state represents (document 01, "The rule and its walk"): a visit at each
// word met. A state is lent as `StateArrays`, and made only where a move or PLACED changes it.
#![tactic(auto)]

ghost use Rattle.std.specs.Prelude.{◌+◌, ◌-◌, ◌≤◌, ◌<◌};
ghost use Rattle.walk_stages.specs.Visits.{Visitable, Visits as Answers, Looks as Finds, Splits};

use engine_state_arrays::{NAMED, StateArrays};
use read_messages::KIND_UNIT;
use walk_rule_answers::{
    last_name, name_said, next_count, placing, right_rule, turned, void_rule, with_name,
};
use walk_stages::{
    Counts, EARLY_END, MANY_PARTS, MANY_SOMES, NO_DEPTH, NO_VISIT, ODD_WORD, WORDS, Walked,
};
use walk_states::{Spot, Step, Walk, all_targets, is_called, next_state, next_turn};

// There are so many parts at most, and so many SOMEs around a word; a name is below the third.
const PARTS: usize = 64;

const SOMES: usize = 8;

const NAMES: u32 = 536870912;

// A visit at the word of the spot, whose depth is among the depths left.
#[cycle(at_name_beside_either_negation_placed_in_some_name_sometime_somewhere_split_visit)]
pub fn visit(walk: &Walk, lent: &StateArrays, chosen: &[u32; 256], spot: Spot, c: Counts) -> Walked
    requires { (spot.left ≤ 256) × Visitable walk.now.script.now lent.now.sets lent.now.numbers spot.top spot.somes walk.now.limits }
    ensures { Answers walk.now.program.now walk.now.script.now lent.now.sets lent.now.numbers chosen.now spot.top spot.somes spot.left spot.at walk.now.limits c result }
{
    let visits = c.visits;
    let at = spot.at;
    let left = spot.left;
    if left == 0 {
        return Walked::Stopped(NO_DEPTH, at, visits);
    }
    if walk.limits.patience <= visits {
        return Walked::Stopped(NO_VISIT, at, visits);
    }
    if WORDS <= at {
        return Walked::Stopped(EARLY_END, at, visits);
    }
    let kind = walk.program[at] / KIND_UNIT;
    let n = next_count(c, left);
    let mut below = spot;
    below.left = left - 1;
    // Document 01 names this form: a match over the ten kinds, the rest refused as a range.
    match kind {
        0 => Walked::Yes(n),
        1 => negation(walk, lent, chosen, below, n),
        2 => either(walk, lent, chosen, below, n),
        3 => void_rule(spot.top, n),
        4 => at_name(walk, lent, chosen, below, n),
        5 => beside(walk, lent, chosen, below, n),
        6 => some_name(walk, lent, chosen, below, n),
        7 => sometime(walk, lent, chosen, below, n),
        8 => somewhere(walk, lent, chosen, below, n),
        9 => placed_in(walk, lent, chosen, below, n),
        10..=4294967295 => Walked::Stopped(ODD_WORD, at, visits),
    }
}

// NOT: the inner rule.
#[cycle(at_name_beside_either_negation_placed_in_some_name_sometime_somewhere_split_visit)]
fn negation(walk: &Walk, lent: &StateArrays, chosen: &[u32; 256], spot: Spot, c: Counts) -> Walked
    requires { (spot.at < 256) × (spot.left ≤ 255) × Visitable walk.now.script.now lent.now.sets lent.now.numbers spot.top spot.somes walk.now.limits }
    ensures { Finds walk.now.program.now walk.now.script.now lent.now.sets lent.now.numbers chosen.now spot.top spot.somes spot.left spot.at walk.now.limits c result 1 }
{
    let mut inner = spot;
    inner.at = spot.at + 1;
    let w = visit(walk, lent, chosen, inner, c);
    turned(w)
}

// OR: left, and on no right.
#[cycle(at_name_beside_either_negation_placed_in_some_name_sometime_somewhere_split_visit)]
fn either(walk: &Walk, lent: &StateArrays, chosen: &[u32; 256], spot: Spot, c: Counts) -> Walked
    requires { (spot.at < 256) × (spot.left ≤ 255) × Visitable walk.now.script.now lent.now.sets lent.now.numbers spot.top spot.somes walk.now.limits }
    ensures { Finds walk.now.program.now walk.now.script.now lent.now.sets lent.now.numbers chosen.now spot.top spot.somes spot.left spot.at walk.now.limits c result 2 }
{
    let mut inner = spot;
    inner.at = spot.at + 1;
    let on_left = visit(walk, lent, chosen, inner, c);
    let Walked::No(c2) = on_left else {
        return on_left;
    };
    let mut right = spot;
    right.at = right_rule(walk.program, spot.at);
    visit(walk, lent, chosen, right, c2)
}

// AT: the inner rule inside the one top part, if that is an ambient of the name.
#[cycle(at_name_beside_either_negation_placed_in_some_name_sometime_somewhere_split_visit)]
fn at_name(walk: &Walk, lent: &StateArrays, chosen: &[u32; 256], spot: Spot, c: Counts) -> Walked
    requires { (spot.at < 256) × (spot.left ≤ 255) × Visitable walk.now.script.now lent.now.sets lent.now.numbers spot.top spot.somes walk.now.limits }
    ensures { Finds walk.now.program.now walk.now.script.now lent.now.sets lent.now.numbers chosen.now spot.top spot.somes spot.left spot.at walk.now.limits c result 4 }
{
    let at = spot.at;
    let top = spot.top;
    if base_sets::is_single(top) {
        let i = base_sets::first(top);
        let name = name_said(walk.program[at], chosen);
        if is_called(lent, i, name) {
            let mut inside = spot;
            inside.at = at + 1;
            inside.top = lent.sets[i];
            return visit(walk, lent, chosen, inside, c);
        }
    }
    Walked::No(c)
}

// Left with the share, on yes right with the rest.
#[cycle(at_name_beside_either_negation_placed_in_some_name_sometime_somewhere_split_visit)]
fn split(
    walk: &Walk,
    lent: &StateArrays,
    chosen: &[u32; 256],
    spot: Spot,
    c: Counts,
    share: u64,
) -> Walked
    requires { (spot.at < 256) × (spot.left ≤ 255) × Visitable walk.now.script.now lent.now.sets lent.now.numbers spot.top spot.somes walk.now.limits }
    ensures { Splits walk.now.program.now walk.now.script.now lent.now.sets lent.now.numbers chosen.now spot.top spot.somes spot.left spot.at walk.now.limits c result share }
{
    let mut side = spot;
    side.at = spot.at + 1;
    side.top = share;
    let w = visit(walk, lent, chosen, side, c);
    let Walked::Yes(c2) = w else {
        return w;
    };
    side.at = right_rule(walk.program, spot.at);
    side.top = base_sets::difference(spot.top, share);
    visit(walk, lent, chosen, side, c2)
}

// BESIDE: the shares in rising order of the sum of 2^number over their parts.
#[cycle(at_name_beside_either_negation_placed_in_some_name_sometime_somewhere_split_visit)]
fn beside(walk: &Walk, lent: &StateArrays, chosen: &[u32; 256], spot: Spot, c: Counts) -> Walked
    requires { (spot.at < 256) × (spot.left ≤ 255) × Visitable walk.now.script.now lent.now.sets lent.now.numbers spot.top spot.somes walk.now.limits }
    ensures { Finds walk.now.program.now walk.now.script.now lent.now.sets lent.now.numbers chosen.now spot.top spot.somes spot.left spot.at walk.now.limits c result 5 }
{
    let mut now = c;
    // An iterator of shares would hold this number and take the same step: no plainer.
    let mut share: u64 = 0;
    loop {
        let w = split(walk, lent, chosen, spot, now, share);
        if share == spot.top {
            return w;
        }
        let Walked::No(c2) = w else {
            return w;
        };
        now = c2;
        share = base_shares::next_share(spot.top, share);
    }
}

// SOME: the names 1 to G + d in order.
#[cycle(at_name_beside_either_negation_placed_in_some_name_sometime_somewhere_split_visit)]
fn some_name(walk: &Walk, lent: &StateArrays, chosen: &[u32; 256], spot: Spot, c: Counts) -> Walked
    requires { (spot.at < 256) × (spot.left ≤ 255) × Visitable walk.now.script.now lent.now.sets lent.now.numbers spot.top spot.somes walk.now.limits }
    ensures { Finds walk.now.program.now walk.now.script.now lent.now.sets lent.now.numbers chosen.now spot.top spot.somes spot.left spot.at walk.now.limits c result 6 }
{
    let somes = spot.somes;
    if SOMES <= somes {
        return Walked::Stopped(MANY_SOMES, spot.at, c.visits);
    }
    let last = last_name(walk.limits, somes);
    let mut now = c;
    for n in 1..=last {
        let names = with_name(chosen, spot.at, n);
        let mut inner = spot;
        inner.at = spot.at + 1;
        inner.somes = spot.somes + 1;
        let w = visit(walk, lent, &names, inner, now);
        let Walked::No(c2) = w else {
            return w;
        };
        now = c2;
    }
    Walked::No(now)
}

// SOMETIME: the inner rule; on no, SOMETIME after each move by rising actor, then target.
#[cycle(at_name_beside_either_negation_placed_in_some_name_sometime_somewhere_split_visit)]
fn sometime(walk: &Walk, lent: &StateArrays, chosen: &[u32; 256], spot: Spot, c: Counts) -> Walked
    requires { (spot.at < 256) × (spot.left ≤ 255) × Visitable walk.now.script.now lent.now.sets lent.now.numbers spot.top spot.somes walk.now.limits }
    ensures { Finds walk.now.program.now walk.now.script.now lent.now.sets lent.now.numbers chosen.now spot.top spot.somes spot.left spot.at walk.now.limits c result 7 }
{
    // One spot for the visits: each more is one in the frame of a deep walk.
    let mut there = spot;
    there.at = spot.at + 1;
    let w = visit(walk, lent, chosen, there, c);
    let Walked::No(c2) = w else {
        return w;
    };
    let mut targets: [u64; 64] = [0; 64];
    let homes = all_targets(lent, spot.top, walk.limits.limit, &mut targets);
    let mut now = c2;
    // An iterator of turns would hold the same two numbers and lend the targets: no plainer.
    let mut turn = next_turn(&targets, 0, 0, walk.limits.limit);
    while turn.rest != 0 {
        let a = turn.from - 1;
        let t = base_sets::first(turn.rest);
        let step = Step::Move(a, t);
        // The move is made on a copy of the state.
        let mut next = *lent;
        there = spot;
        there.top = next_state(walk.script, &mut next, spot.top, &homes, step);
        let w2 = visit(walk, &next, chosen, there, now);
        let Walked::No(c3) = w2 else {
            return w2;
        };
        now = c3;
        turn = next_turn(&targets, turn.from, turn.rest, walk.limits.limit);
    }
    Walked::No(now)
}

// SOMEWHERE: the inner rule; on no, SOMEWHERE inside each named top ambient by rising number.
#[cycle(at_name_beside_either_negation_placed_in_some_name_sometime_somewhere_split_visit)]
fn somewhere(walk: &Walk, lent: &StateArrays, chosen: &[u32; 256], spot: Spot, c: Counts) -> Walked
    requires { (spot.at < 256) × (spot.left ≤ 255) × Visitable walk.now.script.now lent.now.sets lent.now.numbers spot.top spot.somes walk.now.limits }
    ensures { Finds walk.now.program.now walk.now.script.now lent.now.sets lent.now.numbers chosen.now spot.top spot.somes spot.left spot.at walk.now.limits c result 8 }
{
    let mut inner = spot;
    inner.at = spot.at + 1;
    let w = visit(walk, lent, chosen, inner, c);
    let Walked::No(c2) = w else {
        return w;
    };
    let mut now = c2;
    // A set is held in a number: no iterator of base_sets, which would hold this number and take the same two steps.
    let mut rest = base_sets::intersection(spot.top, lent.sets[NAMED]);
    while rest != 0 {
        let i = base_sets::first(rest);
        let others = base_sets::rest(rest);
        let mut inside = spot;
        inside.top = lent.sets[i];
        let w2 = visit(walk, lent, chosen, inside, now);
        let Walked::No(c3) = w2 else {
            return w2;
        };
        now = c3;
        rest = others;
    }
    Walked::No(now)
}

// PLACED: the inner rule on the process as the inside of one new ambient.
#[cycle(at_name_beside_either_negation_placed_in_some_name_sometime_somewhere_split_visit)]
fn placed_in(walk: &Walk, lent: &StateArrays, chosen: &[u32; 256], spot: Spot, c: Counts) -> Walked
    requires { (spot.at < 256) × (spot.left ≤ 255) × Visitable walk.now.script.now lent.now.sets lent.now.numbers spot.top spot.somes walk.now.limits }
    ensures { Finds walk.now.program.now walk.now.script.now lent.now.sets lent.now.numbers chosen.now spot.top spot.somes spot.left spot.at walk.now.limits c result 9 }
{
    let at = spot.at;
    let number = placing(walk.program, at);
    if PARTS <= number {
        return Walked::Stopped(MANY_PARTS, at, c.visits);
    }
    let i = walk.limits.parts + number;
    let name = name_said(walk.program[at], chosen);
    if PARTS <= i {
        return Walked::Stopped(MANY_PARTS, at, c.visits);
    }
    if NAMES <= name {
        return Walked::Stopped(ODD_WORD, at, c.visits);
    }
    let nowhere: [usize; 64] = [65; 64];
    let step = Step::Place(i, name);
    let mut next = *lent;
    let mut inner = spot;
    inner.at = at + 1;
    inner.top = next_state(walk.script, &mut next, spot.top, &nowhere, step);
    visit(walk, &next, chosen, inner, c)
}
