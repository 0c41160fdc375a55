// The theorem about roadworks (proofs/Theorem.antt). There is no code here: the call is crate `roads`.
#![tactic(auto)]
