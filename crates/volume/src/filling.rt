// Taking a block's samples, along x, since they lie side by side there in the volume. A block's slots along an axis are 0 to n, then -1 and n + 1; what each
// of them adds to a place of the volume is worked out once, for each axis in a list of its own, and a place is one of each added up.
ghost use Rattle.std.specs.Prelude.{◌≡◌, ◌+◌, ◌*◌, ◌≤◌, length};
ghost use Rattle.laws.specs.Steps.{laid};
ghost use Rattle.model.specs.Limits.{most_subdivisions};
ghost use Rattle.model.specs.Samples.{sample_length};
ghost use Rattle.volume.specs.Definition.{most_across, volume_sample, block_in};
ghost use Rattle.volume.specs.Known.{Axis, Cut, Readable, Ready};
ghost use Rattle.volume.specs.Slots.{slot_up, Steps};
ghost use Rattle.volume.specs.Putting.{ColumnFits, ColumnPut, LineFits, LinePut, SquaresFit, SquaresPut, FacesFit, FacesPut, BlockFits, BlockPut};

use crate::places::{Cutout, nearest};
use grid::voxel_blocks::MOST_SUBDIVISIONS;
use words::orders::{ByteOrder, Little};

const MOST_SLOTS: usize = MOST_SUBDIVISIONS + 3;

// A slot's coordinate, kept one up.
fn slot_up(n: usize, slot: usize) -> usize
    requires { n ≤ most_subdivisions }
    ensures { (result ≡ slot_up n slot) × (result ≤ n + 2) }
{
    if slot <= n {
        return slot + 1;
    }
    if slot == n + 1 {
        return 0;
    }
    n + 2
}

// What each slot of an axis adds to a place, a step for each sample.
fn fill_steps(steps: &mut [usize], n: usize, size: usize, first: usize, step: usize)
    requires { (n ≤ most_subdivisions) × (Axis size first × ((step ≤ most_across * most_across) × (n + 3 ≤ length steps.old))) }
    ensures { Steps steps.new n size first step }
{
    for (k, added) in steps[..n + 3].iter_mut().enumerate() {
        *added = step * nearest(size, first + slot_up(n, k));
    }
}

// Of a sample that can be used.
fn sample_at(bytes: &[u8], place: usize) -> f32
    requires { Readable bytes.now place }
    ensures { result ≡ volume_sample bytes.now place }
{
    f32::from_bits(Little::word_at(bytes, 4 * place))
}

// Places of the block: so many rows from a first one on, each `wide` places after the one before it.
#[derive(Clone, Copy)]
struct Column {
    at: usize,
    wide: usize,
    rows: usize,
}

// The samples of a row of the volume, as a column. By index: a proof does not learn what is written through iter_mut with a stride.
fn put_column(bytes: &[u8], xs: &[usize], row: usize, samples: &mut [f32], column: Column)
    requires { ColumnFits bytes.now xs.now row (length samples.old) column.at column.wide column.rows }
    ensures { ColumnPut bytes.now xs.now row column.at column.wide column.rows samples.old samples.new }
{
    for k in 0..column.rows {
        samples[column.at + column.wide * k] = sample_at(bytes, row + xs[k]);
    }
}

// So many rows of the volume, as columns side by side.
fn put_line(
    bytes: &[u8],
    xs: &[usize],
    fixed: usize,
    along: &[usize],
    samples: &mut [f32],
    first: Column,
    count: usize,
)
    requires { LineFits bytes.now xs.now fixed along.now (length samples.old) first.at first.wide first.rows count }
    ensures { LinePut bytes.now xs.now fixed along.now first.at first.wide first.rows count samples.old samples.new }
{
    for (j, place) in along[..count].iter().enumerate() {
        let column = Column {
            at: first.at + j,
            ..first
        };
        put_column(bytes, xs, fixed + *place, samples, column);
    }
}

// What the slots of each axis add.
#[derive(Drop)]
struct Axes {
    xs: [usize; MOST_SLOTS],
    ys: [usize; MOST_SLOTS],
    zs: [usize; MOST_SLOTS],
}

// The squares of each x, from 0 to n, and of the faces x=-1 and x=n+1.
fn put_squares(bytes: &[u8], axes: &Axes, samples: &mut [f32], n: usize)
    requires { (n ≤ most_subdivisions) × SquaresFit bytes.now axes.now.xs axes.now.ys axes.now.zs (length samples.old) n }
    ensures { SquaresPut bytes.now axes.now.xs axes.now.ys axes.now.zs n (n + 1) samples.old samples.new }
{
    let m = n + 1;
    for y in 0..m {
        let first = Column {
            at: m * y,
            wide: m * m,
            rows: m + 2,
        };
        put_line(bytes, &axes.xs, axes.ys[y], &axes.zs, samples, first, m);
    }
}

// The two faces across an axis, whose squares follow one another.
fn put_faces(
    bytes: &[u8],
    xs: &[usize],
    across: &[usize],
    along: &[usize],
    samples: &mut [f32],
    square: usize,
    n: usize,
)
    requires { (n ≤ most_subdivisions) × FacesFit n bytes.now xs.now across.now along.now (length samples.old) square }
    ensures { FacesPut n bytes.now xs.now across.now along.now square 2 samples.old samples.new }
{
    let m = n + 1;
    for side in 0..2 {
        let first = Column {
            at: m * m * (square + side),
            wide: m,
            rows: m,
        };
        put_line(bytes, xs, across[m + side], along, samples, first, m);
    }
}

// All squares.
fn put_block(bytes: &[u8], axes: &Axes, samples: &mut [f32], n: usize)
    requires { BlockFits n bytes.now axes.now.xs axes.now.ys axes.now.zs (length samples.old) }
    ensures { BlockPut n bytes.now axes.now.xs axes.now.ys axes.now.zs samples.old samples.new }
{
    put_squares(bytes, axes, samples, n);
    put_faces(bytes, &axes.xs, &axes.ys, &axes.zs, samples, n + 3, n);
    put_faces(bytes, &axes.xs, &axes.zs, &axes.ys, samples, n + 5, n);
}

impl Cutout {
    fn axes(self) -> Axes
        requires { Cut self.sizes self.n self.first }
        ensures x { Steps result.xs self.n self.sizes.x self.first.x 1 }
        ensures y { Steps result.ys self.n self.sizes.y self.first.y self.sizes.x }
        ensures z { Steps result.zs self.n self.sizes.z self.first.z (self.sizes.x * self.sizes.y) }
    {
        let mut axes = Axes {
            xs: [0; MOST_SLOTS],
            ys: [0; MOST_SLOTS],
            zs: [0; MOST_SLOTS],
        };
        let n = self.n;
        fill_steps(&mut axes.xs, n, self.sizes.x, self.first.x, 1);
        fill_steps(&mut axes.ys, n, self.sizes.y, self.first.y, self.sizes.x);
        fill_steps(
            &mut axes.zs,
            n,
            self.sizes.z,
            self.first.z,
            self.sizes.x * self.sizes.y,
        );
        axes
    }

    pub fn fill(self, bytes: &[u8], samples: &mut [f32])
        requires { Ready bytes.now self.sizes self.n self.first × (sample_length self.n ≤ length samples.old) }
        ensures { samples.new ≡ laid (block_in bytes.now self.sizes self.n self.first) samples.old }
    {
        put_block(bytes, &self.axes(), samples, self.n);
    }
}
