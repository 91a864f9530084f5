// How many words a tree is written with: those in front of a part's body, of a part, of a body.
#![tactic(auto)]

ghost use Rattle.std.specs.Prelude.{◌≡◌, length};
ghost use Rattle.base_sets.specs.Sets.{members};
ghost use Rattle.engine_bindings.specs.Bindings.{bindings_in};
ghost use Rattle.base_slices.specs.Sums.{capped};
ghost use Rattle.theory_closures.specs.Closure.{unfold_head};
ghost use Rattle.engine_states.specs.Represents.{head_of};
ghost use Rattle.theory_written_trees.specs.Write.{Indices, write_head};
ghost use Rattle.write_counts.specs.Trees.{bindings_under, bodies_in, heads_in};
ghost use Rattle.write_counts.specs.Asked.{HeadCountAsked, PartCountAsked, TreeAsked};
ghost use Rattle.write_counts.specs.Counts.{CountsPart, CountsBody};

use base_slices::{sum, wide};
use engine_held_bindings::{item_words, words_of};
use engine_message_words::Binding;
use read_scripts::{ACTION, MOST_PARTS, RECEIPT, SCRIPT_BODY};
use write_heads::has_body;

// The tree that stands, as it is lent to be written: the script; which parts stand in each body; of each part its kind,
// where its message starts, and how many of its items are spent; and the bindings, newest first. What is known of the parts
// stands in an array each, and in no rows: so the part table and the state hold it (read_scripts::Table, engine_states::State).
#[derive(Clone, Copy)]
pub struct Standing<'a> {
    pub script: &'a [u32],
    pub kids: &'a [u64; 65],
    pub kinds: &'a [u8; 64],
    pub starts: &'a [u32; 64],
    pub offsets: &'a [u32; 64],
    pub bindings: &'a [Binding],
}

// The number of words in front of a part's body, at most 2^32 - 1.
fn count_head(script: &[u32], kind: u8, start: u32, offset: u32, bindings: &[Binding]) -> u32
    requires { HeadCountAsked script.now start offset bindings.now }
    ensures { (ix : Indices) → result ≡ capped (length (write_head ix (unfold_head (bindings_in script.now bindings.now) (head_of script.now kind start offset)))) }
{
    let at = wide(start);
    match kind {
        ACTION => sum(1, item_words(script, at, offset, bindings)),
        RECEIPT => 1,
        _ => sum(1, words_of(script, at, bindings)),
    }
}

// The number of words that the part i is written with, at most 2^32 - 1.
#[cycle(count_body_count_part)]
fn count_part(tree: &Standing, i: usize, fuel: usize) -> u32
    requires { PartCountAsked tree.now i }
    ensures { CountsPart (bindings_under tree.now) (bodies_in tree.now) (heads_in tree.now) (bodies_in tree.now i) (heads_in tree.now i) fuel result }
{
    let kind = tree.kinds[i];
    let head = count_head(
        tree.script,
        kind,
        tree.starts[i],
        tree.offsets[i],
        tree.bindings,
    );
    if has_body(kind) {
        let inside = count_body(tree, tree.kids[i], fuel);
        return sum(head, inside);
    }
    head
}

// The number of words that the body is written with whose parts are left, at most 2^32 - 1.
#[cycle(count_body_count_part)]
fn count_body(tree: &Standing, left: u64, fuel: usize) -> u32
    requires { TreeAsked tree.now }
    ensures { CountsBody (bindings_under tree.now) (bodies_in tree.now) (heads_in tree.now) (members left) fuel result }
{
    if left == 0 || fuel == 0 {
        return 1;
    }
    let i = base_sets::first(left);
    let part = count_part(tree, i, fuel - 1);
    let others = base_sets::rest(left);
    let beside = count_body(tree, others, fuel - 1);
    sum(part, beside)
}

// The number of words that the tree is written with, at most 2^32 - 1.
pub fn count_words(tree: &Standing) -> u32
    requires { TreeAsked tree.now }
    ensures { CountsBody (bindings_under tree.now) (bodies_in tree.now) (heads_in tree.now) (bodies_in tree.now 64) 64 result }
{
    count_body(tree, tree.kids[SCRIPT_BODY], MOST_PARTS)
}
