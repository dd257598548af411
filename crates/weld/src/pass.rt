// The pass, in windows of vertices from the first up: a window is closed up, then every corner that names one of its vertices is renumbered.
// A new index is at most the old one, so that no corner is renumbered twice. What the pass keeps in mind stands on the stack, in tables by the
// count of vertices: few are done with small ones, which are made sooner, and many with a larger window, so that the corners are gone over
// fewer times.
ghost use Rattle.std.specs.Prelude.{◌<◌, ◌^◌};
ghost use Rattle.weld.specs.Leaves.{Fits, AllWelded};

use crate::corners::renumber;
use crate::memory::Memory;

// The tables of few, of some and of many vertices: words of bits, hints, places of a window. 131,072 bits are enough for each edge of a block
// with 32 subdivisions to have its own, and 1,048,576 for one with 64.
const FEW: usize = 2048;

const FEW_WORDS: usize = 2048;

const SOME: usize = 16384;

const WORDS: usize = 16384;

const HINTS: usize = 16384;

const MANY: usize = 65536;

impl<const WORDS: usize, const HINTS: usize, const PLACES: usize> Memory<WORDS, HINTS, PLACES> {
    // A while and no step_by: a window begins where the one before it ended, which is all that the proof asks.
    fn windows(
        &mut self,
        v: usize,
        vertices: &mut [f32],
        triangles: &mut [u32],
        edges: &mut [u32],
    ) -> usize
        requires fits { Fits v vertices.old edges.old }
        requires tables { (0 < WORDS) × ((0 < HINTS) × (0 < PLACES)) }
        ensures { AllWelded v vertices.old triangles.old edges.old result vertices.new triangles.new edges.new }
    {
        let mut k = 0;
        let mut start = 0;
        while start < v {
            let end = start + PLACES.min(v - start);
            k = self.close(start, end, k, vertices, edges);
            renumber(&self.table, start, end, triangles);
            start = end;
        }
        k
    }
}

// With so many words of bits, hints and places of a window.
fn pass_in<const WORDS: usize, const HINTS: usize, const PLACES: usize>(
    v: usize,
    vertices: &mut [f32],
    triangles: &mut [u32],
    edges: &mut [u32],
) -> usize
    requires fits { Fits v vertices.old edges.old }
    requires some { (0 < WORDS) × ((0 < HINTS) × (0 < PLACES)) }
    requires few { (WORDS < 2 ^ 32) × ((HINTS < 2 ^ 32) × (PLACES < 2 ^ 32)) }
    ensures { AllWelded v vertices.old triangles.old edges.old result vertices.new triangles.new edges.new }
{
    Memory::<WORDS, HINTS, PLACES>::new().windows(v, vertices, triangles, edges)
}

pub fn pass(v: usize, vertices: &mut [f32], triangles: &mut [u32], edges: &mut [u32]) -> usize
    requires { Fits v vertices.old edges.old }
    ensures { AllWelded v vertices.old triangles.old edges.old result vertices.new triangles.new edges.new }
{
    if v <= FEW {
        return pass_in::<FEW_WORDS, FEW, FEW>(v, vertices, triangles, edges);
    }
    if v <= SOME {
        return pass_in::<WORDS, HINTS, SOME>(v, vertices, triangles, edges);
    }
    pass_in::<WORDS, HINTS, MANY>(v, vertices, triangles, edges)
}
