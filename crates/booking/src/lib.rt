// The rules by which a reading is booked to an arm, over whole lists of records: definitions, claims and proofs. No code.
#![tactic(auto)]
