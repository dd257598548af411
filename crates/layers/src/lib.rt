// A summary by layer (document 02, [12]): made of a block's samples, kept up to date where a sample is set, and judged for extraction. Of each layer of
// cells along x it has two f32, its least and its greatest sample, or a NaN in either as the mark that they are not worked out. specs/Definition says what
// making and setting refuse and leave; what a layer is, and what 26 asks, is the model's Layers.
#![tactic(auto)]

mod extents;
pub mod judging;
pub mod layers_left;
pub mod making;
mod putting;
pub mod setting;
