// Promised in a row: definitions and theorems over the promises of the calls, and no code.
#![tactic(auto)]
