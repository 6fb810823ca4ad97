// Places, candidates and types, and the link between two candidates: definitions in specs/, their laws in proofs/.

#![tactic(auto)]
