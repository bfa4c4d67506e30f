// What a session prints, by the rules alone: whole, and in the pieces that the program hands to its write call. No code.
#![tactic(auto)]
