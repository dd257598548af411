// What is proved once and belongs to no subject: steps, lists, sums, counting and tests, in specs/ and proofs/. There is no code here.

#![tactic(auto)]
