// The theorems about studios that share a plan (proofs/Theorem.antt). There is no code here: the calls are crates `view` and `relocation`.
#![tactic(auto)]
