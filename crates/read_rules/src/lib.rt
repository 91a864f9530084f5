// The reader of a rule and the table that it fills: questions 7 to 12 of document 01.
#![tactic(auto)]

ghost use Rattle.std.specs.Prelude.{◌≡◌, ◌<◌, length, drop};
ghost use Rattle.read_messages.specs.Reading.{cursor};
ghost use Rattle.read_rule_words.specs.ReadRule.{read_rule};
ghost use Rattle.read_rules.specs.RuleTable.{vacant, turned, entered, scanned, Readable, Enterable};
ghost use Rattle.read_rules.specs.Ruled.{Answers};

use read_messages::{Innermost, Refusal};
use read_rule_words::{MOST_SOMES, RuleShape, ask_rule};

// Question 7: the most words.
const MOST_WORDS: usize = 256;

// Question 12: the most parts and PLACED words.
const MOST_PARTS: usize = 64;

// The rule's words by index: of an OR or BESIDE where its right rule starts, of a PLACED its place among the PLACED words.
// count is the number of PLACED words. The arrays are no rows: the walk's program has each as a stretch of numbers (walk_rules: loaded).
#[derive(Drop)]
pub struct RuleTable {
    pub rights: [u16; 256],
    pub placings: [u8; 256],
    pub count: usize,
}

impl RuleTable {
    // The table of no rule.
    fn vacant() -> RuleTable
        ensures { result ≡ vacant }
    {
        RuleTable {
            rights: [0; 256],
            placings: [0; 256],
            count: 0,
        }
    }

    // The table in which the right rule of the word at the index at starts at the index right.
    fn turn(self, at: usize, right: u16) -> RuleTable
        requires { at < 256 }
        ensures { result ≡ turned at right self }
    {
        let mut t = self;
        t.rights[at] = right;
        t
    }

    // The table with one PLACED word more, at the index at.
    fn enter(self, at: usize) -> RuleTable
        requires { Enterable at self.count }
        ensures { result ≡ entered at self.count self }
    {
        let n = self.count;
        let mut t = self;
        t.placings[at] = n as u8;
        t.count = n + 1;
        t
    }
}

// What a reader of rules answers: the index of the word behind the rule, and the table with it.
#[derive(Drop)]
pub struct RuleScan {
    pub next: usize,
    pub table: RuleTable,
}

// The rule at the front of s, the words from index at on, with so many rules around it.
fn read_rule(
    s: &[u32],
    at: usize,
    around: usize,
    somes: Innermost<MOST_SOMES>,
    table: RuleTable,
) -> Result<RuleScan, Refusal>
    requires { Readable s.now at around somes.first table.count }
    ensures { result ≡ scanned table (read_rule (length s.now) around (drop somes.first somes.indices) (cursor at table.count s.now)) }
{
    let Some((word, rest)) = s.split_first() else {
        return Err(Refusal {
            question: 11,
            place: at,
        });
    };
    match ask_rule(*word, at, around, somes.as_slice())? {
        RuleShape::Leaf => Ok(RuleScan {
            next: at + 1,
            table,
        }),
        RuleShape::One => read_rule(rest, at + 1, around + 1, somes, table),
        RuleShape::Two => {
            let left = read_rule(rest, at + 1, around + 1, somes, table)?;
            let next = left.next;
            let t = left.table.turn(at, next as u16);
            read_rule(&s[next - at..], next, around + 1, somes, t)
        }
        RuleShape::Choice => read_rule(rest, at + 1, around + 1, somes.with(at as u16), table),
        RuleShape::Place => read_rule(rest, at + 1, around + 1, somes, table.enter(at)),
    }
}

// The whole rule beside a script of so many parts: questions 7 to 12.
pub fn read_whole_rule(rule: &[u32], parts: usize) -> Result<RuleTable, Refusal>
    ensures { Answers parts rule.now result }
{
    let n = rule.len();
    if n == 0 || MOST_WORDS < n {
        return Err(Refusal {
            question: 7,
            place: 0,
        });
    }
    let a = read_rule(rule, 0, 0, Innermost::none(), RuleTable::vacant())?;
    if a.next < n {
        return Err(Refusal {
            question: 11,
            place: a.next,
        });
    }
    if MOST_PARTS < parts.saturating_add(a.table.count) {
        return Err(Refusal {
            question: 12,
            place: 0,
        });
    }
    Ok(a.table)
}
