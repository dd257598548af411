// Binary STL for the design packages (document 02, [1]): a mesh written as a file, and a file read into positions, three vertices a
// triangle. specs/Definition says what is written, read and refused.
#![tactic(auto)]

mod layout;
pub mod reader;
pub mod writer;
