// A record that passed its judges.
ghost use Rattle.std.specs.Prelude.{◌≡◌, ◌<◌, Err, MatchResult, Ok, get_or};
ghost use Rattle.std.specs.Float.{nan};
ghost use Rattle.std.proofs.Props.{props};
ghost use Rattle.model.specs.Record.{count_of, header_of, judge_record, samples_of};

use crate::fields::{HEADER_LENGTH, header_of, sample_from};
use crate::judging::judge_record;
use model::{Header, Refusal};
use words::orders::{Big, ByteOrder};

// Its bytes, and the header that they tell.
#[derive(Clone, Copy)]
pub struct Record<'a> {
    pub bytes: &'a [u8],
    pub header: Header,
    pub ghost passed: { judge_record bytes.now ≡ Ok tt } by { Prim.hlevel props },
    pub ghost told: { header ≡ header_of bytes.now } by { Prim.hlevel props },
}

impl<'a> Record<'a> {
    pub fn new(bytes: &'a [u8]) -> Result<Record<'a>, Refusal>
        ensures { MatchResult result (λ r. r.bytes.now ≡ bytes.now) (λ e. judge_record bytes.now ≡ Err e) }
    {
        judge_record(bytes)?;
        let header = header_of(bytes);
        Ok(Record { bytes, header })
    }

    // How many samples it holds.
    pub fn count(&self) -> usize
        ensures { result ≡ count_of self.now.bytes.now }
    {
        (self.bytes.len() - HEADER_LENGTH) / 4
    }

    pub fn sample(&self, k: usize) -> f32
        requires { k < count_of self.now.bytes.now }
        ensures { result ≡ get_or (samples_of self.now.bytes.now) k nan }
    {
        Big::float_at(self.bytes, sample_from(k))
    }
}
