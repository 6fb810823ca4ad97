// What is claimed, as theorems, in specs/: document 01's "Types and links", its printout, and demands 2 and 3 on a book's bytes; of its readings in
// proofs/Readings.

#![tactic(auto)]
