// Words of four bytes among bytes, in both orders, and floats by their bit patterns: what records and STL files are made of.
#![tactic(auto)]

pub mod floats;
pub mod orders;
