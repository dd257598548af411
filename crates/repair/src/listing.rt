// The list of changes: how many there are, and the words of each, four a change.
ghost use Rattle.std.specs.Prelude.{◌≡◌, ◌+◌, ◌*◌, ◌^◌, ◌≤◌, ◌<◌, length};
ghost use Rattle.std.proofs.lemmas.List.Edits.{sets};
ghost use Rattle.grid.specs.Counts.{most_samples};
ghost use Rattle.repair.specs.Definition.{words_of, fillers_in, mismatches, changes_of};
ghost use Rattle.repair.specs.Damaged.{delivered};
ghost use Rattle.repair.specs.Faces.{spot_count};
ghost use Rattle.repair.specs.Filled.{filled_in};
ghost use Rattle.repair.specs.Listed.{found_of, Listed};

use crate::faces::spot_count;
use crate::samples::{Damaged, filler_at};
use crate::{CENTRE, Change, NEIGHBOURS};

fn count_found(found: Option<Change>) -> usize
    ensures { (result ≡ length (found_of found)) × (result ≤ 1) }
{
    usize::from(found.is_some())
}

// Four stores, since an array copied over goes by the stack, and takes longer.
fn put_change(changes: &mut [u32], at: usize, change: Change)
    requires { 4 * (at + 1) ≤ length changes.old }
    ensures { changes.new ≡ sets changes.old (4 * at) (words_of change) }
{
    let from = 4 * at;
    changes[from] = change.list;
    changes[from + 1] = change.place;
    changes[from + 2] = change.old;
    changes[from + 3] = change.new;
}

// What was found, if anything, as entry `at` where there is room; and the next entry.
fn put_found(changes: &mut [u32], at: usize, found: Option<Change>) -> usize
    requires { at + 1 < 2 ^ 64 }
    ensures { Listed changes.old at (found_of found) result changes.new }
{
    match found {
        Some(change) => {
            if at < changes.len() / 4 {
                put_change(changes, at, change);
            }
            at + 1
        }
        None => at,
    }
}

// A walk of its own, which writes nothing: the compiler counts many at a time. Counted by the listing, a sample takes half as long again.
fn count_bad(list: u32, bits: &[u32], filler: u32) -> usize
    requires { length bits.now ≤ most_samples }
    ensures { (result ≡ length (fillers_in list filler bits.now)) × (result ≤ length bits.now) }
{
    let mut bad = 0;
    for place in 0..bits.len() {
        bad += count_found(filler_at(list, bits, filler, place));
    }
    bad
}

fn list_bad(list: u32, bits: &[u32], filler: u32, changes: &mut [u32], from: usize) -> usize
    requires { (length bits.now ≤ most_samples) × (from ≤ most_samples) }
    ensures few { result ≤ from + length bits.now }
    ensures listed { Listed changes.old from (fillers_in list filler bits.now) result changes.new }
{
    let mut at = from;
    for place in 0..bits.len() {
        at = put_found(changes, at, filler_at(list, bits, filler, place));
    }
    at
}

impl Damaged<'_> {
    fn count_mismatches(&self) -> usize
        ensures { (result ≡ length (mismatches self.now.header (filled_in self.now.filler (delivered self.now)))) × (result ≤ spot_count self.now.header.block.subdivisions) }
    {
        let mut count = 0;
        for k in 0..spot_count(self.header.block.subdivisions) {
            count += count_found(self.mismatch_at(k));
        }
        count
    }

    pub fn count_changes(&self) -> usize
        ensures { result ≡ length (changes_of self.now.header self.now.filler (delivered self.now)) }
    {
        let bad = count_bad(CENTRE, self.centre, self.filler)
            + count_bad(NEIGHBOURS, self.neighbours, self.filler);
        bad + self.count_mismatches()
    }

    fn list_mismatches(&self, changes: &mut [u32], from: usize) -> usize
        requires { from ≤ 2 * most_samples }
        ensures { Listed changes.old from (mismatches self.now.header (filled_in self.now.filler (delivered self.now))) result changes.new }
    {
        let mut at = from;
        for k in 0..spot_count(self.header.block.subdivisions) {
            at = put_found(changes, at, self.mismatch_at(k));
        }
        at
    }

    // As many as there is room for, and the number of all.
    pub fn list_changes(&self, changes: &mut [u32]) -> usize
        ensures { Listed changes.old 0 (changes_of self.now.header self.now.filler (delivered self.now)) result changes.new }
    {
        let of_centre = list_bad(CENTRE, self.centre, self.filler, changes, 0);
        let bad = list_bad(NEIGHBOURS, self.neighbours, self.filler, changes, of_centre);
        self.list_mismatches(changes, bad)
    }
}
