// Document 02, [4]: the sample of a grid point is read from a lent list here alone, as a reading that tells where it is stored, and a reading
// is taken apart here. Inlined, the kind leaves no trace where only the value is wanted.
ghost use Rattle.std.specs.Prelude.{◌≡◌, ◌<◌, length, get_or};
ghost use Rattle.std.specs.Float.{nan};
ghost use Rattle.model.specs.Samples.{value_of};
ghost use Rattle.grid.specs.Kinds.{in_block_reading};

use model::PlaceKind;

// The sample at a place of the store of this kind.
pub fn reading_at(samples: &[f32], at: usize, kind: PlaceKind) -> Result<(f32, PlaceKind), usize>
    requires { at < length samples.now }
    ensures { result ≡ Ok (get_or samples.now at nan, kind) }
{
    Ok((samples[at], kind))
}

// A point that was never sampled has no value: a NaN.
pub fn value_of(read: Result<(f32, PlaceKind), usize>) -> f32
    ensures { result ≡ value_of read }
{
    match read {
        Ok((value, _)) => value,
        Err(_) => f32::NAN,
    }
}

// Of a point of the block, by its place among these samples.
pub fn value_in_block(samples: &[f32], at: usize) -> f32
    requires { at < length samples.now }
    ensures { result ≡ value_of (in_block_reading samples.now at) }
{
    value_of(reading_at(samples, at, PlaceKind::InBlock))
}
