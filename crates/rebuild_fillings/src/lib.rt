// Fillings of gaps as a walk comes to them, and the numbers that stand for them: definitions and laws only.
#![tactic(auto)]
