// The tree writer: the words of the standing tree counted, then written at the front of a lent buffer. Each writer
// writes at the front of the buffer that it is lent, says how many words it wrote, and lends the tail behind them to
// the next writer.
#![tactic(auto)]

ghost use Rattle.std.specs.Prelude.{◌≡◌, [], ◌≤◌};
ghost use Rattle.base_sets.specs.Sets.{members};
ghost use Rattle.read_scripts.specs.Tree.{tops, parts};
ghost use Rattle.read_scripts.specs.Represents.{Held};
ghost use Rattle.theory_closures.specs.Closure.{Closure, unfolded};
ghost use Rattle.theory_written_trees.specs.Write.{write};
ghost use Rattle.write_heads.specs.Around.{indices_of};
ghost use Rattle.write_counts.specs.Trees.{bindings_under, bodies_in, heads_in};
ghost use Rattle.write_counts.specs.Asked.{TreeAsked};
ghost use Rattle.write_trees.specs.Room.{Fitted};
ghost use Rattle.write_trees.specs.Asked.{PartAsked, BodyAsked};
ghost use Rattle.write_trees.specs.Bodies.{Writes, WritesPart};

use base_slices::wide;
use read_messages::Refusal;
use read_scripts::{MOST_PARTS, SCRIPT_BODY};
use write_counts::{Standing, count_words};
use write_heads::{Around, around_body, has_body, nothing_around, write_head};
use write_messages::write_word;

// The word behind the last part of a body.
const CLOSE_WORD: u32 = 0;

// How many words of a buffer count: an index fits an operand.
const MOST_WORDS: u32 = 268435456;

// Question 19 of document 01, whether the tree fits the buffer, is asked of no word: its place is 0.
const TREE_FITS: u32 = 19;

const NO_WORD: usize = 0;

// Writes the part i, whose word has the index.
#[cycle(write_body_write_part)]
fn write_part(
    tree: &Standing,
    around: &Around,
    i: usize,
    index: usize,
    fuel: usize,
    out: &mut [u32],
) -> usize
    requires { PartAsked tree.now around.now i index fuel out.old }
    ensures { WritesPart (indices_of around.now) (bindings_under tree.now) (bodies_in tree.now) (heads_in tree.now) (bodies_in tree.now i) (heads_in tree.now i) index fuel out.old out.new result }
{
    let kind = tree.kinds[i];
    let start = tree.starts[i];
    let offset = tree.offsets[i];
    let m = write_head(tree.script, kind, start, offset, tree.bindings, around, out);
    if has_body(kind) {
        let inside = around_body(around, kind, start, index as u32);
        return write_body(tree, &inside, tree.kids[i], index + m, fuel, &mut out[m..]) + m;
    }
    m
}

// Writes the body whose parts are left, its first word having the index.
#[cycle(write_body_write_part)]
fn write_body(
    tree: &Standing,
    around: &Around,
    left: u64,
    index: usize,
    fuel: usize,
    out: &mut [u32],
) -> usize
    requires { BodyAsked tree.now around.now index fuel out.old }
    ensures { Writes (indices_of around.now) (bindings_under tree.now) (bodies_in tree.now) (heads_in tree.now) (members left) index fuel out.old out.new result }
{
    if out.len() == 0 {
        return 0;
    }
    if left == 0 || fuel == 0 {
        return write_word(CLOSE_WORD, out);
    }
    let i = base_sets::first(left);
    let m = write_part(tree, around, i, index, fuel - 1, out);
    let others = base_sets::rest(left);
    write_body(tree, around, others, index + m, fuel - 1, &mut out[m..]) + m
}

// Writes the tree at the front of the buffer, if it fits in the first 2^28 words; says how many words it wrote.
pub fn write_tree(tree: &Standing, out: &mut [u32]) -> Result<u32, Refusal>
    requires { TreeAsked tree.now }
    ensures { (b : Closure) → bodies_in tree.now 64 ≡ tops b → Held (bodies_in tree.now) (heads_in tree.now) b → parts b ≤ 64 → Fitted (write [] 0 (unfolded (bindings_under tree.now) b)) out.old out.new result }
{
    let n = count_words(tree);
    let words = wide(n);
    if MOST_WORDS < n || out.len() < words {
        return Err(Refusal {
            question: TREE_FITS,
            place: NO_WORD,
        });
    }
    let around = nothing_around();
    write_body(
        tree,
        &around,
        tree.kids[SCRIPT_BODY],
        0,
        MOST_PARTS,
        &mut out[..words],
    );
    Ok(n)
}
