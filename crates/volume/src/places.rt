// Where a block's samples lie in the volume. A coordinate that may be -1 is kept one up.
ghost use Rattle.std.specs.Prelude.{◌≡◌, ◌+◌, ◌*◌, ◌≤◌, ◌<◌};
ghost use Rattle.model.specs.Samples.{sample_length};
ghost use Rattle.model.specs.Limits.{most_subdivisions};
ghost use Rattle.volume.specs.Definition.{most_across, volume_count, volume_place, point_on, nearest, nearest_point, taken_place};
ghost use Rattle.volume.specs.Known.{InVolume, Cut, Near};

use model::Xyz;

// A block of n subdivisions whose (0, 0, 0) is the point `first` of a volume of these sizes.
#[derive(Clone, Copy)]
pub struct Cutout {
    pub sizes: Xyz,
    pub n: usize,
    pub first: Xyz,
}

pub fn nearest(size: usize, c: usize) -> usize
    requires { 1 ≤ size }
    ensures { (result ≡ nearest size c) × (result < size) }
{
    c.saturating_sub(1).min(size - 1)
}

// The place of the sample number x of a row, where rows of that width lie end to end.
fn in_row(x: usize, width: usize, row: usize) -> usize
    requires { (x ≤ most_across) × ((width ≤ most_across) × (row ≤ most_across + most_across * most_across)) }
    ensures { (result ≡ x + width * row) × (result ≤ most_across + most_across * row) }
{
    x + width * row
}

pub fn volume_place(sizes: Xyz, p: Xyz) -> usize
    requires { InVolume sizes p }
    ensures { (result ≡ volume_place sizes p) × (result < volume_count sizes) }
{
    in_row(p.x, sizes.x, in_row(p.y, sizes.y, p.z))
}

fn point_on(n: usize, square: usize, i: usize, j: usize) -> Xyz
    requires { (n ≤ most_subdivisions) × ((i ≤ n) × (j ≤ n)) }
    ensures { result ≡ point_on n square i j }
{
    let a = i + 1;
    let b = j + 1;
    if square <= n {
        return Xyz {
            x: square + 1,
            y: a,
            z: b,
        };
    }
    match square - (n + 1) {
        0 => Xyz { x: 0, y: a, z: b },
        1 => Xyz {
            x: n + 2,
            y: a,
            z: b,
        },
        2 => Xyz { x: a, y: 0, z: b },
        3 => Xyz {
            x: a,
            y: n + 2,
            z: b,
        },
        4 => Xyz { x: a, y: b, z: 0 },
        _ => Xyz {
            x: a,
            y: b,
            z: n + 2,
        },
    }
}

impl Cutout {
    // The volume's point for a point of the block.
    pub fn nearest_point(self, p: Xyz) -> Xyz
        requires { Cut self.sizes self.n self.first × Near self.n p }
        ensures { result ≡ nearest_point self.sizes self.first p }
    {
        Xyz {
            x: nearest(self.sizes.x, self.first.x + p.x),
            y: nearest(self.sizes.y, self.first.y + p.y),
            z: nearest(self.sizes.z, self.first.z + p.z),
        }
    }

    // The volume's place for a place of the centre.
    pub fn taken_place(self, place: usize) -> usize
        requires { Cut self.sizes self.n self.first × (place < sample_length self.n) }
        ensures { (result ≡ taken_place self.sizes self.n self.first place) × (result < volume_count self.sizes) }
    {
        let m = self.n + 1;
        let line = place / m;
        let p = point_on(self.n, line / m, line % m, place % m);
        volume_place(self.sizes, self.nearest_point(p))
    }
}
