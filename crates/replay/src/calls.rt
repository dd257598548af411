// A vector's call, made again. A record is read and then meshed. A block is meshed as it stands: so extraction meets what the reader would
// have refused, and blocks whose records are too long for an array: 16 and 17 subdivisions with six finer neighbours, and 33 and 64 alone.
ghost use Rattle.std.specs.Prelude.{◌≤◌, length};

use crate::agreeing::{Lists, MARK, answer_agrees, floats_agree};
use crate::parts::{number, word};
use crate::vector::Trial;
use model::{Header, Lent, Numbers, Report};
use record::fields::HEADER_LENGTH;
use record::reader::read_record;
use words::floats::float_of;

fn numbers_of(report: Report) -> Numbers {
    match report.answer {
        Ok(counts) => Numbers {
            number: 0,
            first: counts.vertices,
            second: counts.triangles,
            third: report.reads as usize,
        },
        Err(refusal) => Numbers::from(refusal),
    }
}

// Meshed with as many places of the buffers as the vector says.
fn mesh_agrees(trial: &Trial<'_>, lent: &Lent<'_>, lists: &mut Lists<'_>) -> bool {
    let Some(store) = lists.store.get_mut(..number(trial.call, 1)) else {
        return false;
    };
    let Some(vertices) = lists.vertices.get_mut(..number(trial.call, 2)) else {
        return false;
    };
    let Some(triangles) = lists.triangles.get_mut(..number(trial.call, 3)) else {
        return false;
    };
    let report = algorithm::extract(
        lent.header,
        lent.centre,
        lent.neighbours,
        store,
        vertices,
        triangles,
    );
    answer_agrees(trial, numbers_of(report), lists)
}

// The first of the samples are the centre's, as many as the vector says.
fn samples_agree(
    trial: &Trial<'_>,
    header: Header,
    samples: &[f32],
    lists: &mut Lists<'_>,
) -> bool {
    let Some((centre, neighbours)) = samples.split_at_checked(number(trial.call, 4)) else {
        return false;
    };
    let lent = Lent {
        header,
        centre,
        neighbours,
    };
    mesh_agrees(trial, &lent, lists)
}

// The samples that were read are the record's, and all beyond is as it was.
fn read_agrees(trial: &Trial<'_>, header: Header, samples: &[f32], lists: &mut Lists<'_>) -> bool {
    let Some(read) = trial.input.get(HEADER_LENGTH..) else {
        return false;
    };
    let Some(held) = samples.get(..read.len() / 4) else {
        return false;
    };
    floats_agree(samples, read) && samples_agree(trial, header, held, lists)
}

fn record_agrees(trial: &Trial<'_>, samples: &mut [f32], lists: &mut Lists<'_>) -> bool {
    let Some(lent) = samples.get_mut(..number(trial.call, 5)) else {
        return false;
    };
    match read_record(trial.input, lent) {
        Ok(header) => read_agrees(trial, header, samples, lists),
        Err(refusal) => {
            floats_agree(samples, &[]) && answer_agrees(trial, Numbers::from(refusal), lists)
        }
    }
}

// The samples that the runs tell, as many as there is room for; answers how many.
fn fill(samples: &mut [f32], runs: &[u8]) -> usize
    ensures { result ≤ length samples.new }
{
    let mut at = 0;
    for run in runs.chunks_exact(8) {
        let end = at + number(run, 0).min(samples.len() - at);
        samples[at..end].fill(float_of(word(run, 1)));
        at = end;
    }
    at
}

fn block_agrees(trial: &Trial<'_>, samples: &mut [f32], lists: &mut Lists<'_>) -> bool {
    let count = fill(samples, trial.input);
    samples_agree(trial, trial.header(), &samples[..count], lists)
}

fn call_agrees(trial: &Trial<'_>, samples: &mut [f32], lists: &mut Lists<'_>) -> bool {
    if trial.is_record() {
        record_agrees(trial, samples, lists)
    } else {
        block_agrees(trial, samples, lists)
    }
}

fn agrees_in<const STORE: usize>(trial: &Trial<'_>, samples: &mut [f32]) -> bool
    requires { STORE ≤ 1294340 }
{
    let mut lists = Lists {
        store: &mut [MARK; STORE],
        vertices: &mut [float_of(MARK); 5000],
        triangles: &mut [MARK; 4000],
    };
    call_agrees(trial, samples, &mut lists)
}

// 16 subdivisions have a store of 31,744 places, and 64 one of 1,294,336.
const STORE: usize = 31750;

const LARGER_STORE: usize = 1294340;

fn agrees_with<const SAMPLES: usize>(trial: &Trial<'_>) -> bool
    requires { SAMPLES ≤ 309130 }
{
    let mut samples = [float_of(MARK); SAMPLES];
    if STORE < number(trial.call, 1) {
        agrees_in::<LARGER_STORE>(trial, &mut samples)
    } else {
        agrees_in::<STORE>(trial, &mut samples)
    }
}

// The longest record has 6,647 samples; 17 subdivisions and six neighbours have 309,126, and 64 alone 299,975.
pub fn passes(vector: &[u8]) -> bool {
    let trial = Trial::new(vector);
    if trial.is_record() {
        agrees_with::<6650>(&trial)
    } else {
        agrees_with::<309130>(&trial)
    }
}
