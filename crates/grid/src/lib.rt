// Whole numbers of the grid: where a sample stands, the sides of a block, the six rotations and the places of the index store, each
// equal to its definition in the model. Those modules that the Rust has carry its names.
#![tactic(auto)]

pub mod face_walk;
pub mod named_sides;
mod nesting;
pub mod readings;
pub mod rotation;
pub mod shared_vertex_indices;
pub mod transition_sides;
pub mod voxel_blocks;
