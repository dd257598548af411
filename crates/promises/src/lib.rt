// What the buyer was promised: theorems over what the public calls answer and leave. specs/Promises.antt says what is
// promised, proofs/Kept.antt that it holds.

#![tactic(auto)]
