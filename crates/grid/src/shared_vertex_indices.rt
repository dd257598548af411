// The places of the index store: where a cell's stored vertex indices stand (document 01, 'Regular cells' and 'Transition cells').
ghost use Rattle.std.specs.Prelude.{◌≡◌, ◌<◌, ◌≤◌};
ghost use Rattle.model.specs.Limits.{most_subdivisions};
ghost use Rattle.model.specs.Mesh.{regular_store, store_length, regular_place, transition_place};
ghost use Rattle.grid.specs.StorePlaces.{RegularCell, TransitionCell};

use crate::nesting::nest;

// The places that the index store of a block takes.
pub fn store_length(n: usize) -> usize
    requires { n ≤ most_subdivisions }
    ensures { result ≡ store_length n }
{
    4 * (n * n * n) + 60 * (n * n)
}

pub fn regular_place(n: usize, x: usize, y: usize, z: usize, r: usize) -> usize
    requires { RegularCell n x y z r }
    ensures { (result ≡ regular_place n x y z r) × (result < regular_store n) }
{
    nest(n, n * r + z, y, x)
}

// After the regular ones, whose four times n * n * n places stand beside r.
pub fn transition_place(n: usize, side: usize, u: usize, v: usize, r: usize) -> usize
    requires { TransitionCell n side u v r }
    ensures { (result ≡ transition_place n side u v r) × (result < store_length n) }
{
    nest(n, 4 * n + 6 * r, 6 * v, 6 * u + side)
}
