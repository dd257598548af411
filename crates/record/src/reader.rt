// Reading a record: the block it tells, and its samples in the first places of a lent list.
ghost use Rattle.std.specs.Prelude.{◌≡◌, ◌≤◌, length};
ghost use Rattle.laws.specs.Steps.{laid};
ghost use Rattle.model.specs.Record.{count_of, samples_of, read_record};

use crate::passed::Record;
use judge::judge_buffer;
use model::{Header, Refusal};

fn fill_samples(from: &Record<'_>, samples: &mut [f32])
    requires { count_of from.now.bytes.now ≤ length samples.old }
    ensures { samples.new ≡ laid (samples_of from.now.bytes.now) samples.old }
{
    for (k, sample) in samples[..from.count()].iter_mut().enumerate() {
        *sample = from.sample(k);
    }
}

// The judges of the bytes, and 14.
pub fn read_record(bytes: &[u8], samples: &mut [f32]) -> Result<Header, Refusal>
    ensures { record { answer = result; samples = samples.new } ≡ read_record bytes.now samples.old }
{
    let whole = Record::new(bytes)?;
    judge_buffer(whole.count(), samples.len())?;
    fill_samples(&whole, samples);
    Ok(whole.header)
}
