// No gap at the finer face: theorems over the model's mesh. specs/Labels.antt and specs/Clauses.antt say what is proved,
// proofs/NoGap.antt and proofs/Vertices.antt have the theorems.

#![tactic(auto)]
