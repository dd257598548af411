// The cells of a row that may be cut, one after another.
ghost use Rattle.std.specs.Prelude.{◌≡◌, ◌+◌, ◌-◌, ◌≤◌, length};
ghost use Rattle.std.specs.Iterator.{at_most};
ghost use Rattle.model.specs.Limits.{most_subdivisions};
ghost use Rattle.cases.specs.Sheets.{sheet_places};
ghost use Rattle.cases.specs.CutCells.{CellGiven};

use crate::marks::next_marked;

#[derive(Drop)]
pub struct CutCells<'a> {
    pub n: usize,
    pub marks: &'a [u8],
    pub start: usize,
    pub from: usize,
    ghost few: { n ≤ most_subdivisions },
    ghost room: { start + n + 8 ≤ length marks.now },
    ghost places: { length marks.now ≡ sheet_places },
    ghost within: { from ≤ n },
}

// Of the row whose marks begin at a place.
pub fn cut_cells(n: usize, marks: &[u8], start: usize) -> CutCells<'_>
    requires few { n ≤ most_subdivisions }
    requires room { start + n + 8 ≤ length marks.now }
    requires places { length marks.now ≡ sheet_places }
    ensures n { result.n ≡ n }
    ensures marks { result.marks.now ≡ marks.now }
    ensures start { result.start ≡ start }
    ensures from { result.from ≡ 0 }
{
    CutCells {
        n,
        marks,
        start,
        from: 0,
    }
}

impl<'a> Iterator for CutCells<'a> {
    type Item = usize;

    ghost next_gives = { λ s v t. CellGiven s.n s.marks.now s.start s.from v t.n t.marks.now t.start t.from };

    ghost remaining = { λ s. at_most (s.n - s.from) };

    fn next(&mut self) -> Option<usize> {
        let v = next_marked(self.n, self.marks, self.start, self.from);
        if v == self.n {
            return None;
        }
        self.from = v + 1;
        Some(v)
    }
}
