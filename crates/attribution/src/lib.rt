// Whose bytes a sample was read from, over whole lists of records: definitions, claims and proofs. No code.
#![tactic(auto)]
