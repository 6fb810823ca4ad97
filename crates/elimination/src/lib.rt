// Type elimination: the largest sound set of candidates. Definitions in specs/, the theorems in proofs/.

#![tactic(auto)]
