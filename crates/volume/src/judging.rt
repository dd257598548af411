// The judges of a cut: 1, 20, 21, 22, 7, 14. A sample is judged by its bits, so that no pattern of a NaN becomes an f32.
ghost use Rattle.std.specs.Prelude.{◌≡◌, ◌+◌, ◌*◌, ◌≤◌, length};
ghost use Rattle.model.specs.Limits.{most_subdivisions};
ghost use Rattle.model.specs.declared.Refusal.TheVariants.{VolumeLength, FirstPoint};
ghost use Rattle.model.specs.Refusals.{unless, or_else};
ghost use Rattle.model.specs.Judging.{usable};
ghost use Rattle.volume.specs.Definition.{volume_sample, size_fits, judge_sizes, in_volume, judge_taken, judge_volume, judge_cut};
ghost use Rattle.volume.specs.Known.{Axis, Known};
ghost use Rattle.volume.specs.Boxes.{row_usable, plane_usable, box_usable, RowIn, PlaneIn, BoxIn, span_of, span_usable};

use crate::places::{Cutout, nearest, volume_place};
use grid::voxel_blocks::sample_length;
use judge::{judge_buffer, judge_subdivisions, unless};
use model::{Refusal, Xyz};
use record::judging::is_usable;
use words::orders::{ByteOrder, Little};

const MOST_ACROSS: usize = 1024;

// The twin of record's, whose words are Big: of one for both orders the clause would name no sample.
fn is_usable_at(bytes: &[u8], place: usize) -> bool
    requires { 4 * place + 4 ≤ length bytes.now }
    ensures { result ≡ usable (volume_sample bytes.now place) }
{
    is_usable(Little::word_at(bytes, 4 * place))
}

// Places of the volume from a first one on: so many side by side in a row, so many rows, each a step after the one before it, and so many planes
// of rows, each a stride after the one before it.
#[derive(Clone, Copy)]
struct Cuboid {
    from: usize,
    count: usize,
    step: usize,
    rows: usize,
    stride: usize,
    planes: usize,
}

// Its loops go by index: a fold was tried, and the proof that its closure may be called at each turn did not close.
impl Cuboid {
    // Whether the samples of its first row can be used. They lie side by side, and the compiler looks at many at a time.
    fn row_usable(self, bytes: &[u8]) -> bool
        requires { RowIn bytes.now self.from self.count }
        ensures { result ≡ row_usable bytes.now self.from self.count }
    {
        let mut usable = true;
        for k in 0..self.count {
            usable = usable & is_usable_at(bytes, self.from + k);
        }
        usable
    }

    // The same of its first plane.
    fn plane_usable(self, bytes: &[u8]) -> bool
        requires { PlaneIn bytes.now self.from self.count self.step self.rows }
        ensures { result ≡ plane_usable bytes.now self.from self.count self.step self.rows }
    {
        let mut usable = true;
        for y in 0..self.rows {
            let row = Cuboid {
                from: self.from + self.step * y,
                ..self
            };
            usable = usable & row.row_usable(bytes);
        }
        usable
    }

    // The same of all its planes.
    fn is_usable(self, bytes: &[u8]) -> bool
        requires { BoxIn bytes.now self.from self.count self.step self.rows self.stride self.planes }
        ensures { result ≡ box_usable bytes.now self.from self.count self.step self.rows self.stride self.planes }
    {
        let mut usable = true;
        for z in 0..self.planes {
            let plane = Cuboid {
                from: self.from + self.stride * z,
                ..self
            };
            usable = usable & plane.plane_usable(bytes);
        }
        usable
    }
}

// How many samples there are from -1 to n + 1 on an axis, as far as the volume goes.
fn span(n: usize, size: usize, first: usize) -> usize
    requires { (n ≤ most_subdivisions) × Axis size first }
    ensures { result ≡ span_of n size first }
{
    nearest(size, first + (n + 2)) - nearest(size, first) + 1
}

fn size_fits(size: usize) -> bool
    ensures { result ≡ size_fits size }
{
    (1 <= size) & (size <= MOST_ACROSS)
}

// 20.
fn judge_sizes(sizes: Xyz) -> Result<(), Refusal>
    ensures { result ≡ judge_sizes sizes }
{
    let fits = size_fits(sizes.x) & size_fits(sizes.y) & size_fits(sizes.z);
    unless(fits, Refusal::VolumeSize)
}

fn is_in_volume(sizes: Xyz, p: Xyz) -> bool
    ensures { result ≡ in_volume sizes p }
{
    (p.x < sizes.x) & (p.y < sizes.y) & (p.z < sizes.z)
}

// 21, 22.
fn judge_bounds(whole: bool, inside: bool) -> Result<(), Refusal>
    ensures { result ≡ or_else (unless whole VolumeLength) (unless inside FirstPoint) }
{
    unless(whole, Refusal::VolumeLength)?;
    unless(inside, Refusal::FirstPoint)
}

impl Cutout {
    // The first bad sample taken, in the order of the centre's places.
    fn first_bad(self, bytes: &[u8]) -> Result<(), Refusal>
        requires { Known (length bytes.now) self.sizes self.n self.first }
        ensures { result ≡ judge_taken bytes.now self.sizes self.n self.first }
    {
        for place in 0..sample_length(self.n) {
            let taken = self.taken_place(place);
            if !is_usable_at(bytes, taken) {
                return Err(Refusal::BadSample(taken));
            }
        }
        Ok(())
    }

    // Whether every sample of the box can be used that spans all points taken.
    fn span_usable(self, bytes: &[u8]) -> bool
        requires { Known (length bytes.now) self.sizes self.n self.first }
        ensures { result ≡ span_usable self.sizes self.n self.first bytes.now }
    {
        let low = self.nearest_point(Xyz { x: 0, y: 0, z: 0 });
        let spanned = Cuboid {
            from: volume_place(self.sizes, low),
            count: span(self.n, self.sizes.x, self.first.x),
            step: self.sizes.x,
            rows: span(self.n, self.sizes.y, self.first.y),
            stride: self.sizes.x * self.sizes.y,
            planes: span(self.n, self.sizes.z, self.first.z),
        };
        spanned.is_usable(bytes)
    }

    // 7: where the box has no bad sample, none was taken.
    fn judge_taken(self, bytes: &[u8]) -> Result<(), Refusal>
        requires { Known (length bytes.now) self.sizes self.n self.first }
        ensures { result ≡ judge_taken bytes.now self.sizes self.n self.first }
    {
        if self.span_usable(bytes) {
            return Ok(());
        }
        self.first_bad(bytes)
    }

    // 1, 20, 21, 22, of a volume of so many bytes.
    fn judge_volume(self, held: usize) -> Result<(), Refusal>
        ensures { result ≡ judge_volume held self.sizes self.n self.first }
    {
        judge_subdivisions(self.n)?;
        judge_sizes(self.sizes)?;
        let whole = held == 4 * (self.sizes.x * self.sizes.y * self.sizes.z);
        judge_bounds(whole, is_in_volume(self.sizes, self.first))
    }

    // 1, 20, 21, 22, 7, 14.
    pub fn judge(self, bytes: &[u8], room: usize) -> Result<(), Refusal>
        ensures { result ≡ judge_cut bytes.now self.sizes self.n self.first room }
    {
        self.judge_volume(bytes.len())?;
        self.judge_taken(bytes)?;
        judge_buffer(sample_length(self.n), room)
    }
}
