// The script: body reader and part reader above the message reader, and the part table they fill. Questions 1 to 6 of
// document 01.
#![tactic(auto)]

ghost use Rattle.std.specs.Prelude.{◌≡◌, suc, ◌+◌, ◌-◌, ◌<◌, length, drop, Some};
ghost use Rattle.read_messages.specs.Reading.{cursor};
ghost use Rattle.read_messages.specs.ReadMessage.{read_message};
ghost use Rattle.read_scripts.specs.Script.{guarded_head, guarded_from, part_from, read_body};
ghost use Rattle.read_scripts.specs.Table.{vacant, entered, scanned, scanned_part, Readable, PartReadable, GuardedReadable};
ghost use Rattle.read_scripts.specs.Represents.{Answers};

use read_messages::{Innermost, Refusal, read_message};
use read_script_words::{PartWord, ask_part};

// Question 1: the most words.
pub const MOST_WORDS: usize = 1024;

// Question 6: the most parts.
pub const MOST_PARTS: usize = 64;

// The number of the script's own body, behind those of the parts.
pub const SCRIPT_BODY: usize = 64;

// The receipts around a word are at most this many: question 4 lets in the nestings 0 to 64.
const MOST_RECEIPTS: usize = 65;

// The kinds of parts in a table. They stay numbers: a state is lent as arrays of numbers (engine_state_arrays: kinds_in), and
// head_of and heads speak of them.
pub const AMBIENT: u8 = 1;

pub const ACTION: u8 = 2;

pub const RECEIPT: u8 = 3;

pub const OUTPUT: u8 = 4;

// The parts by number: kind, where the message starts (of a receipt, its own index), and the set of the parts in the body;
// entry 64 of kids is the script's own body. count is the number of parts. The arrays stay beside each other, and are no rows:
// a state is lent as such arrays.
#[derive(Clone, Copy)]
pub struct Table {
    pub kinds: [u8; 64],
    pub starts: [u32; 64],
    pub kids: [u64; 65],
    pub count: usize,
}

impl Table {
    // The table with no part.
    fn vacant() -> Table
        ensures { result ≡ vacant }
    {
        Table {
            kinds: [0; 64],
            starts: [0; 64],
            kids: [0; 65],
            count: 0,
        }
    }

    // The table with one part more, in the body of owner.
    fn enter(self, owner: usize, kind: u8, start: u32) -> Table
        requires { self.count < 1024 }
        ensures { result ≡ entered owner kind start self }
    {
        let n = self.count;
        let mut t = self;
        t.count = n + 1;
        if MOST_PARTS <= n {
            return t;
        }
        t.kinds[n] = kind;
        t.starts[n] = start;
        if owner <= SCRIPT_BODY {
            t.kids[owner] = base_sets::with(t.kids[owner], n);
        }
        t
    }
}

// What a reader of bodies and parts answers: the index of the word behind what was read, and the table with its parts.
#[derive(Drop)]
pub struct Scan {
    pub next: usize,
    pub table: Table,
}

// The body at the front of s, the script's words from index at on, up to its CLOSE; owner is the part whose body it is.
#[cycle(read_body_read_guarded_read_part)]
pub fn read_body(
    s: &[u32],
    at: usize,
    nest: usize,
    around: Innermost<MOST_RECEIPTS>,
    owner: usize,
    table: Table,
) -> Result<Scan, Refusal>
    requires { Readable s.now at nest around.first table.count }
    ensures { result ≡ scanned owner table (read_body (length s.now) nest (drop around.first around.indices) (cursor at table.count s.now)) }
{
    // How long a part is is known only when it was read, so that no iterator goes from part to part.
    let mut k: usize = 0;
    let mut t = table;
    while k < s.len() {
        let w = ask_part(s[k], at + k, nest)?;
        if let PartWord::Close = w {
            return Ok(Scan {
                next: at + k + 1,
                table: t,
            });
        }
        let p = read_part(w, &s[k..], at + k, nest, around, owner, t)?;
        t = p.table;
        k = p.next - at;
    }
    Err(Refusal {
        question: 5,
        place: at + k,
    })
}

// The part at the front of s, with what its first word is.
#[cycle(read_body_read_guarded_read_part)]
fn read_part(
    w: PartWord,
    s: &[u32],
    at: usize,
    nest: usize,
    around: Innermost<MOST_RECEIPTS>,
    owner: usize,
    table: Table,
) -> Result<Scan, Refusal>
    requires { PartReadable w s.now at nest around.first table.count }
    ensures { result ≡ scanned_part owner table (part_from (read_message (length s.now - 1) nest (drop around.first around.indices)) (read_body (length s.now - 1) (suc nest)) (drop around.first around.indices) (Some w) at (cursor (at + 1) (suc table.count) (drop 1 s.now))) }
{
    match w {
        PartWord::Close => Err(Refusal {
            question: 2,
            place: at,
        }),
        PartWord::Ambient => read_guarded(AMBIENT, s, at, nest, around, owner, table),
        PartWord::Action => read_guarded(ACTION, s, at, nest, around, owner, table),
        PartWord::Receipt => {
            let inner = around.with(at as u16);
            let n = table.count;
            let t = table.enter(owner, RECEIPT, at as u32);
            read_body(&s[1..], at + 1, nest + 1, inner, n, t)
        }
        PartWord::Output => {
            let next = read_message(&s[1..], at + 1, nest, around.as_slice())?;
            let table = table.enter(owner, OUTPUT, at as u32 + 1);
            Ok(Scan { next, table })
        }
    }
}

// An ambient or an action: message, then body.
#[cycle(read_body_read_guarded_read_part)]
fn read_guarded(
    kind: u8,
    s: &[u32],
    at: usize,
    nest: usize,
    around: Innermost<MOST_RECEIPTS>,
    owner: usize,
    table: Table,
) -> Result<Scan, Refusal>
    requires { GuardedReadable kind s.now at nest around.first table.count }
    ensures { result ≡ scanned_part owner table (guarded_from (guarded_head kind) (read_message (length s.now - 1) nest (drop around.first around.indices)) (read_body (length s.now - 1) (suc nest)) (drop around.first around.indices) at (cursor (at + 1) (suc table.count) (drop 1 s.now))) }
{
    let next = read_message(&s[1..], at + 1, nest, around.as_slice())?;
    let n = table.count;
    let t = table.enter(owner, kind, at as u32 + 1);
    read_body(&s[next - at..], next, nest + 1, around, n, t)
}

// The script: questions 1 to 6.
pub fn read_script(s: &[u32]) -> Result<Table, Refusal>
    ensures { Answers s.now result }
{
    let n = s.len();
    if n == 0 || MOST_WORDS < n {
        return Err(Refusal {
            question: 1,
            place: 0,
        });
    }
    let a = read_body(s, 0, 0, Innermost::none(), SCRIPT_BODY, Table::vacant())?;
    if a.next < n {
        return Err(Refusal {
            question: 5,
            place: a.next,
        });
    }
    if MOST_PARTS < a.table.count {
        return Err(Refusal {
            question: 6,
            place: 0,
        });
    }
    Ok(a.table)
}
