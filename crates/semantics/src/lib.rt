// What a graded rule book means, on abstract books: definitions in specs/, their laws in proofs/.

#![tactic(auto)]
