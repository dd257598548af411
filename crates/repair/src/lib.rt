// A repair pass for damaged deliveries (document 02, [5]): samples that cannot be used become the filler, then fine samples that disagree
// with the centre take its bits, and every change is listed. specs/Definition says what is changed, listed and refused.
#![tactic(auto)]

ghost use Rattle.std.specs.Prelude.{◌≡◌};
ghost use Rattle.repair.specs.Definition.{delivery, judge_repair, repair};

mod applying;
mod faces;
mod listing;
mod samples;

use applying::apply;
use judge::{is_usable, judge_lent, unless};
use model::{Header, Refusal};
use samples::Damaged;
use words::floats::bits_of;

const CENTRE: u32 = 0;

const NEIGHBOURS: u32 = 1;

// A sample that was changed. Its list is a number, CENTRE or NEIGHBOURS, since it is a word of the list of changes, which C reads.
#[derive(Clone, Copy)]
pub struct Change {
    pub list: u32,
    pub place: u32,
    pub old: u32,
    pub new: u32,
}

// 1 to 6, 18, 19.
fn judge_repair(
    header: Header,
    centre: &[u32],
    neighbours: &[u32],
    filler: f32,
    held: usize,
) -> Result<(), Refusal>
    ensures { result ≡ judge_repair header (delivery centre.now neighbours.now) filler held }
{
    judge_lent(header, centre.len(), neighbours.len())?;
    unless(is_usable(filler), Refusal::BadFiller)?;
    let damaged = Damaged {
        header,
        centre,
        neighbours,
        filler: bits_of(filler),
    };
    let wanted = damaged.count_changes();
    unless(wanted <= held / 4, Refusal::ChangesTooShort(wanted))
}

// Nothing is altered unless all fits: the changes are counted, then listed, then made.
pub fn repair(
    header: Header,
    centre: &mut [u32],
    neighbours: &mut [u32],
    filler: f32,
    changes: &mut [u32],
) -> Result<usize, Refusal>
    ensures { record { answer = result; left = delivery centre.new neighbours.new; changes = changes.new } ≡ repair header (delivery centre.old neighbours.old) filler changes.old }
{
    judge_repair(header, centre, neighbours, filler, changes.len())?;
    let damaged = Damaged {
        header,
        centre,
        neighbours,
        filler: bits_of(filler),
    };
    let count = damaged.list_changes(changes);
    apply(changes, count, centre, neighbours);
    Ok(count)
}
