// What the states of sound tables are, what a split does to one, and that it is exact. No code.
#![tactic(auto)]
