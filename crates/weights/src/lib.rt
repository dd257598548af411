// Weights between 0 and 1, and vertices between their ends: theorems over the model's mesh. specs/Clauses.antt says what is
// proved, in the words of specs/Units.antt; proofs/Weights.antt is the theorem.

#![tactic(auto)]
