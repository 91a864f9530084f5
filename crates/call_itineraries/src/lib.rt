// The itinerary of a yes (document 02, Req 01), put into the list that a call is lent.
#![tactic(auto)]

ghost use Rattle.call_itineraries.specs.Showing.{Listable, ShowsMoves};

use call_answers::{Answer, Verdict};

// The answer with the itinerary, whose moves are the array's first words: where it is yes they are put into the list and
// counted; else none is shown.
pub fn with_itinerary(a: Answer, count: usize, moves: &[u32; 256], list: &mut [u32]) -> Answer
    requires { Listable count moves.now list.old }
    ensures { ShowsMoves a count moves.now list.old result list.new }
{
    match a.verdict {
        Verdict::Yes => {
            list[..count].copy_from_slice(&moves[..count]);
            Answer { count, ..a }
        }
        Verdict::No => Answer { count: 0, ..a },
        Verdict::Refused(_) => Answer { count: 0, ..a },
    }
}
