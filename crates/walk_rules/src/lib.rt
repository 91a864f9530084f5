// The whole walk of a rule (document 01, "The rule and its walk"): the rule and its table as one array, the state as two,
// and the visit at the first word.
#![tactic(auto)]

ghost use Rattle.std.specs.Prelude.{◌≡◌, length, get_or};
ghost use Rattle.walk_stages.specs.Visits.{Walks};
ghost use Rattle.walk_rules.specs.Walking.{Loading, RuleWalkable, Routed};

use engine_states::State;
use read_messages::KIND_UNIT;
use read_rules::RuleTable;
use walk_itineraries::{Led, lead};
use walk_stages::{Counts, DEPTHS, Limits, PLACINGS, PROGRAM, RIGHTS, WORDS};
use walk_states::{Spot, Walk, as_arrays};
use walk_visits::visit;

// The kind of SOMETIME.
const SOMETIME: u32 = 7;

// The rule's words and its table as one array.
fn loaded(rule: &[u32], rights: [u16; 256], placings: [u8; 256]) -> [u32; PROGRAM]
    ensures { Loading rule.now rights placings result 256 }
{
    let mut program: [u32; PROGRAM] = [0; PROGRAM];
    for i in 0..WORDS {
        let right = rights[i] as u32;
        let placing = placings[i] as u32;
        program[i] = rule.get(i).copied().unwrap_or(0);
        program[RIGHTS + i] = right;
        program[PLACINGS + i] = placing;
    }
    program
}

// The whole walk of the rule over the process that the state represents. Only one that begins at SOMETIME keeps its moves: on
// yes those that lead to it stand at the list's start.
pub fn walk_rule(
    rule: &[u32],
    table: RuleTable,
    script: &[u32],
    kinds: [u8; 64],
    starts: [u32; 64],
    state: State,
    limits: Limits,
    list: &mut [u32; 256],
) -> Led
    requires { (length list.old ≡ 256) × RuleWalkable script.now kinds starts state limits }
    ensures walked { Walks rule.now table script.now kinds starts state limits result.walked }
    ensures routed { Routed rule.now table script.now kinds starts state limits result.walked result.count list.new }
{
    let program = loaded(rule, table.rights, table.placings);
    let walk = Walk {
        program: &program,
        script,
        limits,
    };
    let s = as_arrays(kinds, starts, state);
    let chosen: [u32; 256] = [0; 256];
    let counts = Counts {
        visits: 0,
        deepest: 0,
    };
    let spot = Spot {
        at: 0,
        top: s.top,
        somes: 0,
        left: DEPTHS,
    };
    if program[0] / KIND_UNIT == SOMETIME {
        return lead(&walk, &s.lent, &chosen, spot, counts, list);
    }
    let walked = visit(&walk, &s.lent, &chosen, spot, counts);
    Led { walked, count: 0 }
}
