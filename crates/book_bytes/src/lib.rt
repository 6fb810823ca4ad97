// Books by their bytes: definitions and laws alone, no code.

#![tactic(auto)]
