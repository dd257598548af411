// The block record of document 01: bytes to a block and its samples, and back. A float is judged by its bits, so that no pattern of a
// NaN ever becomes an f32.
#![tactic(auto)]

pub mod fields;
pub mod judging;
pub mod passed;
pub mod reader;
pub mod writer;
