// Where things stand in a file, as the definition names the lengths.
ghost use Rattle.std.specs.Prelude.{◌≡◌, ◌^◌, ◌<◌};
ghost use Rattle.stl.specs.Definition.{file_length};

pub const HEADER: usize = 80;

// The header and the count.
pub const START: usize = 84;

pub const NORMAL: usize = 12;

pub const CORNER: usize = 12;

pub const ATTRIBUTE: usize = 2;

pub const TRIANGLE: usize = 50;

// The f32 that a triangle is read into.
pub const FLOATS: usize = 9;

// Of so many triangles; so the next one begins there.
pub fn file_length(count: usize) -> usize
    requires { file_length count < 2 ^ 64 }
    ensures { result ≡ file_length count }
{
    START + TRIANGLE * count
}
