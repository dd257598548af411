// What stands in the buffers after a call, held against what a vector tells of it. Before the call every place holds the mark.
use crate::parts::{has_bits, number, word};
use crate::vector::Trial;
use model::Numbers;

// As a float it is too large for a sample and for a vertex.
pub const MARK: u32 = 0x5EED_5EED;

// The buffers that a mesh is written into.
#[derive(Drop)]
pub struct Lists<'a> {
    pub store: &'a mut [u32],
    pub vertices: &'a mut [f32],
    pub triangles: &'a mut [u32],
}

fn is_marked(words: &[u32]) -> bool {
    words.iter().all(|word| *word == MARK)
}

// The first floats have the bits that are told, and the others the mark's.
pub fn floats_agree(floats: &[f32], told: &[u8]) -> bool {
    let (told, _) = told.as_chunks::<4>();
    let Some((written, beyond)) = floats.split_at_checked(told.len()) else {
        return false;
    };
    let mut pairs = written.iter().zip(told);
    pairs.all(|(float, bits)| has_bits(*float, u32::from_be_bytes(*bits)))
        && beyond.iter().all(|float| has_bits(*float, MARK))
}

fn words_agree(words: &[u32], told: &[u8]) -> bool {
    let (told, _) = told.as_chunks::<4>();
    let Some((written, beyond)) = words.split_at_checked(told.len()) else {
        return false;
    };
    let mut pairs = written.iter().zip(told);
    pairs.all(|(word, bytes)| *word == u32::from_be_bytes(*bytes)) && is_marked(beyond)
}

// Each pair of a place and its index stands.
fn pairs_stand(store: &[u32], pairs: &[u8]) -> bool {
    pairs.chunks_exact(8).all(|pair| store.get(number(pair, 0)).copied() == Some(word(pair, 1)))
}

fn count_filled(store: &[u32]) -> usize {
    store.iter().filter(|&index| *index != 0).count()
}

// The pairs stand in the places that were cleared, the others of these are 0, and the mark stands beyond.
fn store_agrees(store: &[u32], cleared: usize, pairs: &[u8]) -> bool {
    let Some((cleared, beyond)) = store.split_at_checked(cleared) else {
        return false;
    };
    count_filled(cleared) == pairs.len() / 8 && pairs_stand(cleared, pairs) && is_marked(beyond)
}

// The answer and the three buffers are as the vector tells.
pub fn answer_agrees(trial: &Trial<'_>, numbers: Numbers, lists: &Lists<'_>) -> bool {
    numbers == trial.numbers()
        && floats_agree(lists.vertices, trial.vertices)
        && words_agree(lists.triangles, trial.triangles)
        && store_agrees(lists.store, number(trial.answer, 4), trial.store)
}
