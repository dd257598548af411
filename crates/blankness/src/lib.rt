// When a block is blank (document 02, [3]): exactly when its mesh has no triangle, and with no finer neighbour exactly when it was so before. Theorems
// over the definition, in proofs/Theorems.antt; no code.

#![tactic(auto)]
