// The first item of an action under bindings.
#![tactic(auto)]

ghost use Rattle.std.specs.Prelude.{◌≡◌, drop};
ghost use Rattle.read_messages.specs.Message.{items, first_item};
ghost use Rattle.read_messages.specs.Spelling.{message_at};
ghost use Rattle.theory_closures.specs.Resolve.{resolve};
ghost use Rattle.engine_bindings.specs.Bindings.{bindings_in};
ghost use Rattle.engine_first_items.specs.Search.{AtVariable};
ghost use Rattle.engine_first_items.specs.Asked.{VariableAsked, ItemAsked};

use base_slices::tail;
use engine_bindings::{after_own, name_of};
use engine_message_words::{Binding, bound, first_word, given, plain_item, shape_of};
use read_messages::First;

// Where a search for an item stands: before which words, how many messages of these are pending, how many of their items
// come before the item, and which bindings the messages lie under.
#[derive(Drop)]
struct Search<'a> {
    words: &'a [u32],
    pending: usize,
    ahead: u32,
    bindings: &'a [Binding],
}

// The search at a variable whose binding is the k-th: in its message, or behind the variable.
fn at_variable<'a>(s: Search<'a>, script: &'a [u32], k: usize) -> Search<'a>
    requires { VariableAsked s k }
    ensures { AtVariable s.entry script.now k result }
{
    let bindings = s.bindings;
    let count = bindings[k].count;
    if s.ahead < count {
        return Search {
            words: given(script, bindings, k),
            pending: 1,
            ahead: s.ahead,
            bindings: &bindings[k + 1..],
        };
    }
    Search {
        words: tail(s.words, 1),
        pending: s.pending - 1,
        ahead: s.ahead - count,
        bindings,
    }
}

// The first from the offset on of the items of the message at a word of the script, after the bindings. A variable's count
// tells at once whether that item is in its message, so the search goes on there or behind it, and never comes back.
pub fn first_item(script: &[u32], at: usize, offset: u32, bindings: &[Binding]) -> First
    requires { ItemAsked script.now offset bindings.now }
    ensures { result ≡ first_item (drop offset (items (resolve (bindings_in script.now bindings.now) (message_at (drop at script.now))))) }
{
    let mut s = Search {
        words: tail(script, at),
        pending: 1,
        ahead: offset,
        bindings,
    };
    // No index is counted here: at a variable the search goes on in another message, so no iterator of words says where it goes.
    while 0 < s.pending {
        let m = first_word(s.words);
        if let Some(k) = bound(m, s.bindings) {
            s = at_variable(s, script, k);
        } else {
            let own = shape_of(m);
            if s.ahead < own.items {
                return plain_item(m, name_of(script, tail(s.words, 1), s.bindings));
            }
            let b = after_own(s.words, s.pending);
            s.words = tail(s.words, b.used);
            s.pending = b.left;
            s.ahead -= own.items;
        }
    }
    First::Nothing
}
