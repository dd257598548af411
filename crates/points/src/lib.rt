// What a vertex is made of: the f32 formulas, the positions of grid points with the shrinking rule, and the grid points of both kinds of
// cell. Each function is equal to its definition in the model.
#![tactic(auto)]

pub mod block;
pub mod formulas;
pub mod fractions;
pub mod grid_point;
