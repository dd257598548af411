// The points of the named sides' faces, by side, then u, then v: where the centre's sample and the neighbour's stand, and the change where
// they lie on two sides of the threshold.
ghost use Rattle.std.specs.Prelude.{◌≡◌, ◌≤◌, ◌<◌};
ghost use Rattle.model.specs.Limits.{most_subdivisions};
ghost use Rattle.repair.specs.Damaged.{delivered};
ghost use Rattle.repair.specs.Filled.{filled_in};
ghost use Rattle.repair.specs.Faces.{Spot, spot_count, spot_of, places_of, agree_bits, mismatch_spot};
ghost use Rattle.repair.specs.Listed.{found_of};

use crate::samples::{Damaged, filled};
use crate::{Change, NEIGHBOURS};
use grid::rotation::side_point;
use grid::transition_sides::{SIDES, count_below, is_named};
use grid::voxel_blocks::{in_block, inside, sample_length};
use model::FacePoint;
use words::floats::float_of;

// The places of a face's point in the list of the centre and in that of the neighbours.
#[derive(Clone, Copy)]
struct Places {
    coarse: usize,
    fine: usize,
}

pub fn spot_count(n: usize) -> usize
    requires { n ≤ most_subdivisions }
    ensures { result ≡ spot_count n }
{
    (n + 1) * (n + 1) * SIDES
}

fn spot_of(n: usize, k: usize) -> FacePoint
    requires { n ≤ most_subdivisions }
    ensures { result ≡ spot_of n k }
{
    let m = n + 1;
    let in_face = k % (m * m);
    FacePoint {
        side: k / (m * m),
        u: in_face / m,
        v: in_face % m,
    }
}

fn places_of(n: usize, mask: u8, at: FacePoint) -> Places
    requires { Spot n mask at }
    ensures { result ≡ places_of n mask at }
{
    let p = side_point(at.side, n, at.u, at.v, 0);
    let q = side_point(at.side, 2 * n, 2 * at.u, 2 * at.v, 2 * n);
    let part = count_below(mask, at.side) * sample_length(2 * n);
    Places {
        coarse: in_block(n, p.x, p.y, p.z),
        fine: part + in_block(2 * n, q.x, q.y, q.z),
    }
}

fn agree(threshold: f32, here: u32, there: u32) -> bool
    ensures { result ≡ agree_bits threshold here there }
{
    inside(threshold, float_of(here)) == inside(threshold, float_of(there))
}

impl Damaged<'_> {
    // Judged as the fillers leave the samples.
    pub fn mismatch_at(&self, k: usize) -> Option<Change>
        requires { k < spot_count self.now.header.block.subdivisions }
        ensures { found_of result ≡ mismatch_spot self.now.header (filled_in self.now.filler (delivered self.now)) k }
    {
        let n = self.header.block.subdivisions;
        let at = spot_of(n, k);
        if !is_named(self.header.mask, at.side) {
            return None;
        }
        let places = places_of(n, self.header.mask, at);
        let coarse = places.coarse;
        let fine = places.fine;
        let here = filled(self.centre[coarse], self.filler);
        let there = filled(self.neighbours[fine], self.filler);
        if agree(self.header.threshold, here, there) {
            return None;
        }
        Some(Change {
            list: NEIGHBOURS,
            place: fine as u32,
            old: there,
            new: here,
        })
    }
}
