// Seatings: document 01's words for who runs where, over any number of cores, any masks and any order; what each call does with them, and why it is right. No code.
#![tactic(auto)]
