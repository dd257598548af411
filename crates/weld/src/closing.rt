// The vertices from a start to an end: the kept close up in the lists, and a table gets the new index of each.
ghost use Rattle.std.specs.Prelude.{◌≡◌, ◌+◌, ◌*◌, ◌≤◌, ◌<◌, length};
ghost use Rattle.std.proofs.lemmas.List.Edits.{sets};
ghost use Rattle.weld.specs.Definition.{vertex_of};
ghost use Rattle.weld.specs.Leaves.{AsLong, Closed, Noted, Room, Tables, Window};

use crate::memory::Memory;
use crate::seen::{note, slot};

// The six numbers of a vertex, to a place that is no higher. By index: copy_within was tried, and slows the whole weld by a twentieth.
fn move_down(vertices: &mut [f32], from: usize, to: usize)
    requires { (to ≤ from) × (6 * (from + 1) ≤ length vertices.old) }
    ensures { vertices.new ≡ sets vertices.old (6 * to) (vertex_of vertices.old from) }
{
    for k in 0..6 {
        vertices[6 * to + k] = vertices[6 * from + k];
    }
}

// Vertex i, whose place is at: a new one is kept at k.
fn keep(
    i: usize,
    k: usize,
    at: usize,
    number: u32,
    vertices: &mut [f32],
    edges: &mut [u32],
    seen: &mut [u64],
) -> usize
    requires { ((k ≤ i) × (i < length edges.old)) × ((6 * (i + 1) ≤ length vertices.old) × (0 < length seen.old)) }
    ensures { Closed i k at number vertices.old edges.old seen.old result vertices.new edges.new seen.new }
{
    if at < k {
        return k;
    }
    edges[k] = number;
    move_down(vertices, i, k);
    note(seen, number);
    k + 1
}

impl<const WORDS: usize, const HINTS: usize, const PLACES: usize> Memory<WORDS, HINTS, PLACES> {
    // After so many kept ones.
    pub fn close(
        &mut self,
        start: usize,
        end: usize,
        first: usize,
        vertices: &mut [f32],
        edges: &mut [u32],
    ) -> usize
        requires room { Room start end first vertices.old edges.old self.old.table × Tables self.old.seen self.old.hints }
        requires noted { Noted self.old.seen edges.old first }
        ensures window { Window start end first vertices.old edges.old result vertices.new edges.new self.new.seen self.new.table }
        ensures as_long { AsLong vertices.old vertices.new edges.old edges.new self.old.seen self.new.seen self.old.hints self.new.hints self.old.table self.new.table }
    {
        let mut k = first;
        // By index, since edges is written meanwhile.
        for i in start..end {
            let number = edges[i];
            let at = self.place_of(edges, k, number);
            self.table[i - start] = at as u32;
            self.hints[slot(HINTS, number as usize)] = at as u32;
            k = keep(i, k, at, number, vertices, edges, &mut self.seen);
        }
        k
    }
}
