// The chain of grades and the connectives on it: definitions in specs/, their laws in proofs/.

#![tactic(auto)]
