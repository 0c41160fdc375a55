// The theorem about days of arrivals and cancellations (proofs/Theorem.antt). There is no code here: the calls are crates `arrival` and `cancellation`.
#![tactic(auto)]
