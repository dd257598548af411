// The walk over the cells that both passes take: sheet by sheet, and over a sheet row by row. What is asked of a sheet, and the laws of the walk, stand in
// specs/.
#![tactic(auto)]
