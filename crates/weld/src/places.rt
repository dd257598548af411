// Where a vertex with a number goes: to the kept vertex that has it, or after all of them.
ghost use Rattle.std.specs.Prelude.{◌≤◌, length};
ghost use Rattle.weld.specs.Leaves.{Found, Noted, Placed, Tables};

use crate::memory::Memory;
use crate::seen::{is_new, slot};
use model::NO_EDGE;

// The last place below k that has the number.
fn look(edges: &[u32], k: usize, number: u32) -> Option<usize>
    requires { k ≤ length edges.now }
    ensures { Found edges.now k number result }
{
    edges[..k].iter().rposition(|edge| *edge == number)
}

impl<const WORDS: usize, const HINTS: usize, const PLACES: usize> Memory<WORDS, HINTS, PLACES> {
    // Where it is new, k: also the index that it gets. A hint is a place to look at first, and nothing is asked of it.
    pub fn place_of(&self, edges: &[u32], k: usize, number: u32) -> usize
        requires k_in_bounds { (k ≤ length edges.now) × Tables self.now.seen self.now.hints }
        requires noted { Noted self.now.seen edges.now k }
        ensures { Placed edges.now k number result }
    {
        if number == NO_EDGE {
            return k;
        }
        if is_new(&self.seen, number) {
            return k;
        }
        let hint = self.hints[slot(HINTS, number as usize)] as usize;
        if hint < k && edges[hint] == number {
            return hint;
        }
        look(edges, k, number).unwrap_or(k)
    }
}
