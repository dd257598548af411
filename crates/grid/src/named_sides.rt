// The named sides of a block, one after another.
ghost use Rattle.std.specs.Prelude.{◌≡◌, ◌-◌, ◌≤◌};
ghost use Rattle.std.specs.Iterator.{at_most};
ghost use Rattle.model.specs.Limits.{most_mask, side_count};
ghost use Rattle.grid.specs.NamedSides.{SideGiven};

use crate::transition_sides::{SIDES, next_side};

#[derive(Drop)]
pub struct NamedSides {
    pub mask: u8,
    pub from: usize,
    ghost masked: { mask ≤ most_mask },
    ghost within: { from ≤ side_count },
}

pub fn named_sides(mask: u8) -> NamedSides
    requires { mask ≤ most_mask }
    ensures mask { result.mask ≡ mask }
    ensures from { result.from ≡ 0 }
{
    NamedSides { mask, from: 0 }
}

impl Iterator for NamedSides {
    type Item = usize;

    ghost next_gives = { λ s side t. SideGiven s.mask s.from side t.mask t.from };

    ghost remaining = { λ s. at_most (side_count - s.from) };

    fn next(&mut self) -> Option<usize> {
        let side = next_side(self.mask, self.from);
        if side == SIDES {
            return None;
        }
        self.from = side + 1;
        Some(side)
    }
}
