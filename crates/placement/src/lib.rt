// Placing the individuals, and the outcome of a book. Definitions in specs/, the theorems in proofs/.

#![tactic(auto)]
