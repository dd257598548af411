// The changes of a list, made one after another.
ghost use Rattle.std.specs.Prelude.{◌≡◌, ◌+◌, ◌*◌, ◌≤◌, ◌<◌, length};
ghost use Rattle.laws.specs.Steps.{iterate};
ghost use Rattle.repair.specs.Definition.{delivery, in_list, made};
ghost use Rattle.repair.specs.Listed.{change_in, makes, AllWithin};

use crate::{CENTRE, Change};

fn change_at(changes: &[u32], k: usize) -> Change
    requires { 4 * (k + 1) ≤ length changes.now }
    ensures { result ≡ change_in changes.now k }
{
    let from = 4 * k;
    Change {
        list: changes[from],
        place: changes[from + 1],
        old: changes[from + 2],
        new: changes[from + 3],
    }
}

fn apply_one(change: Change, centre: &mut [u32], neighbours: &mut [u32])
    requires { change.place < length (in_list change.list (delivery centre.old neighbours.old)) }
    ensures { delivery centre.new neighbours.new ≡ made change (delivery centre.old neighbours.old) }
{
    let place = change.place as usize;
    if change.list == CENTRE {
        centre[place] = change.new;
    } else {
        neighbours[place] = change.new;
    }
}

pub fn apply(changes: &[u32], count: usize, centre: &mut [u32], neighbours: &mut [u32])
    requires { (4 * count ≤ length changes.now) × AllWithin changes.now count (delivery centre.old neighbours.old) }
    ensures { delivery centre.new neighbours.new ≡ iterate (makes changes.now) count (delivery centre.old neighbours.old) }
{
    for k in 0..count {
        apply_one(change_at(changes, k), centre, neighbours);
    }
}
