// The theorem about whole runs (proofs/Theorem.antt). There is no code here: the run itself is crate `ruin_and_recreate`.
#![tactic(auto)]
