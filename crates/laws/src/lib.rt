// What every layer cites of tests, lists, numbers and tables of refusals: definitions and laws, and no code.
#![tactic(auto)]
