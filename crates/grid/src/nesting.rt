// Document 02, [6]: a place by nesting, one multiply at a time. Each kind of place names its three parts, from the slowest on, and the
// number of places that a part runs through.
ghost use Rattle.std.specs.Prelude.{◌≡◌};
ghost use Rattle.grid.specs.Nesting.{nested, Nests};

// No value on the way is above the place, so that all fits where the place does.
pub(crate) fn nest(m: usize, a: usize, b: usize, c: usize) -> usize
    requires { Nests m a b c }
    ensures { result ≡ nested m a b c }
{
    (a * m + b) * m + c
}
