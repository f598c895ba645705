// Theorems about accepted scenes, traces and records are in proofs/; there is no code here.
#![tactic(auto)]
