// Samples by their bits: those that 7 would refuse, and the filler in their places.
ghost use Rattle.std.specs.Prelude.{◌≡◌, ◌≤◌, ◌<◌, length};
ghost use Rattle.grid.specs.Counts.{most_samples};
ghost use Rattle.grid.specs.Shape.{Shaped};
ghost use Rattle.repair.specs.Definition.{as_star, delivery, filler_at};
ghost use Rattle.repair.specs.Filled.{filled_bits};
ghost use Rattle.repair.specs.Listed.{found_of};

use crate::Change;
use model::Header;
use record::judging::is_usable;

// A delivery of the lengths that its header tells, as it is lent, and the filler's bits.
#[derive(Clone, Copy)]
pub struct Damaged<'a> {
    pub header: Header,
    pub centre: &'a [u32],
    pub neighbours: &'a [u32],
    pub filler: u32,
    pub ghost shaped: { Shaped (as_star header (delivery centre.now neighbours.now)) },
}

// The bits, or the filler's where 7 would refuse them.
pub fn filled(bits: u32, filler: u32) -> u32
    ensures { result ≡ filled_bits filler bits }
{
    if is_usable(bits) { bits } else { filler }
}

pub fn filler_at(list: u32, bits: &[u32], filler: u32, place: usize) -> Option<Change>
    requires { (place < length bits.now) × (length bits.now ≤ most_samples) }
    ensures { found_of result ≡ filler_at list filler bits.now place }
{
    let old = bits[place];
    if is_usable(old) {
        return None;
    }
    Some(Change {
        list,
        place: place as u32,
        old,
        new: filler,
    })
}
