// Marks of the cells that are cut, place by place beside a sheet, and the way from one to the next: eight places at a time, as one word.
ghost use Rattle.std.specs.Prelude.{◌≡◌, ℕ, ◌+◌, ◌*◌, ◌%◌, ◌^◌, ◌≤◌, ◌<◌, length, get_or};
ghost use Rattle.model.specs.Limits.{most_subdivisions};
ghost use Rattle.cases.specs.Sheets.{sheet_places, RowPut};
ghost use Rattle.cases.specs.Marks.{all_regular, mark_of, eight_of, NextMarked};

// 1 where the cell is cut.
fn mark(case: u8) -> u8
    ensures { result ≡ mark_of all_regular case }
{
    u8::from((case != 0) & (case != 255))
}

pub fn mark_layer(n: usize, cases: &[u8], marks: &mut [u8])
    requires { (n ≤ most_subdivisions) × ((length cases.now ≡ sheet_places) × (length marks.old ≡ sheet_places)) }
    ensures { RowPut (λ i. mark_of all_regular (get_or cases.now i 0)) 0 (n * (n + 1)) marks.old marks.new }
{
    for (i, place) in marks[..n * (n + 1)].iter_mut().enumerate() {
        *place = mark(cases[i]);
    }
}

// Eight marks as one word, which is one load.
fn eight_at(marks: &[u8], i: usize) -> u64
    requires { i + 8 ≤ length marks.now }
    ensures { result ≡ eight_of marks.now i }
{
    u64::from_le_bytes(*marks[i..].first_chunk().unwrap())
}

// How many of a word's bytes, from the lowest on, are 0.
fn clear_bytes(word: u64) -> usize
    ensures { (result ≤ 8) × (word % 2 ^ (8 * result) ≡ 0) }
{
    (word.trailing_zeros() / 8) as usize
}

// The place, or n: the clause gives the one as the other, and `CutCells` makes the `Option` of it.
fn next_by_words(n: usize, marks: &[u8], start: usize, from: usize) -> usize
    requires n_le_most_subdivisions { (n ≤ most_subdivisions) × ((start + n + 8 ≤ length marks.now) × (length marks.now ≡ sheet_places)) }
    requires from_bound { from ≤ n + 1 }
    ensures { ((from ≤ result + 1) × (result ≤ n)) × ((k : ℕ) → from ≤ k → k < result → get_or marks.now (start + k) 0 ≡ 0) }
{
    // A `step_by` takes up to two fifths more time.
    let mut k = from;
    while k < n {
        let word = eight_at(marks, start + k);
        if word != 0 {
            return (k + clear_bytes(word)).min(n);
        }
        k += 8;
    }
    n
}

// The next cell of a row that may be cut, or the row's end, as `NextMarked` and docs/EXCEPTIONS.md name it. Where most are, the first that is
// looked at is.
pub fn next_marked(n: usize, marks: &[u8], start: usize, from: usize) -> usize
    requires n_le_most_subdivisions { (n ≤ most_subdivisions) × ((start + n + 8 ≤ length marks.now) × (length marks.now ≡ sheet_places)) }
    requires from_le_n { from ≤ n }
    ensures { NextMarked n marks.now start from result }
{
    if marks[start + from] != 0 {
        return from;
    }
    next_by_words(n, marks, start, from + 1)
}
