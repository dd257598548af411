// New numbers for the places of a row, each worked out from what its place holds.
ghost use Rattle.std.specs.Prelude.{ℕ, ◌+◌, ◌*◌, ◌≤◌, ◌<◌, length, get_or};
ghost use Rattle.cases.specs.Sheets.{side_by_side, RowPut, Renewed};

pub const SIDE_BY_SIDE: usize = 16;

// One after another, and none written yet: so the compiler works them out at once, which it does in no loop over samples. Of a regular
// cell's numbers neither a `for` nor `from_fn` is unrolled, and both take nearly twice the time.
fn sixteen<F: Fn(usize, u8) -> u8>(places: &[u8], start: usize, number: &F) -> [u8; SIDE_BY_SIDE]
    requires there { start + side_by_side ≤ length places.now }
    requires callable { (k : ℕ) (old : ℕ) → k < length places.now → F.pre number.now k old }
    ensures { (k : ℕ) → k < side_by_side → F.post number.now (start + k) (get_or places.now (start + k) 0) (get_or result k 0) }
{
    [
        number(start, places[start]),
        number(start + 1, places[start + 1]),
        number(start + 2, places[start + 2]),
        number(start + 3, places[start + 3]),
        number(start + 4, places[start + 4]),
        number(start + 5, places[start + 5]),
        number(start + 6, places[start + 6]),
        number(start + 7, places[start + 7]),
        number(start + 8, places[start + 8]),
        number(start + 9, places[start + 9]),
        number(start + 10, places[start + 10]),
        number(start + 11, places[start + 11]),
        number(start + 12, places[start + 12]),
        number(start + 13, places[start + 13]),
        number(start + 14, places[start + 14]),
        number(start + 15, places[start + 15]),
    ]
}

// `copy_from_slice` looks whether the two lists overlap, and takes a few in a hundred more time.
fn put_sixteen(places: &mut [u8], start: usize, numbers: &[u8; SIDE_BY_SIDE])
    requires { start + side_by_side ≤ length places.old }
    ensures { RowPut (λ k. get_or numbers.now k 0) start side_by_side places.old places.new }
{
    for k in 0..SIDE_BY_SIDE {
        places[start + k] = numbers[k];
    }
}

// The first so many sixteens of the row. By index: the library says nothing of what a list ends as that `as_chunks_mut` has lent.
fn by_sixteens<F: Fn(usize, u8) -> u8>(places: &mut [u8], sixteens: usize, number: &F)
    requires there { side_by_side * sixteens ≤ length places.old }
    requires callable { (k : ℕ) (old : ℕ) → k < length places.old → F.pre number.now k old }
    ensures { Renewed (F.post number.now) (side_by_side * sixteens) places.old places.new }
{
    for i in 0..sixteens {
        let start = SIDE_BY_SIDE * i;
        let numbers = sixteen(places, start, number);
        put_sixteen(places, start, &numbers);
    }
}

// Each place gets the number that its place in the row and what it holds make.
pub fn renew<F: Fn(usize, u8) -> u8>(places: &mut [u8], number: F)
    requires { (k : ℕ) (old : ℕ) → k < length places.old → F.pre number k old }
    ensures { Renewed (F.post number) (length places.old) places.old places.new }
{
    let sixteens = places.len() / SIDE_BY_SIDE;
    by_sixteens(places, sixteens, &number);
    // By index, as the number is of the place in the whole row; `enumerate` on the rest would count from 0.
    for k in SIDE_BY_SIDE * sixteens..places.len() {
        places[k] = number(k, places[k]);
    }
}
