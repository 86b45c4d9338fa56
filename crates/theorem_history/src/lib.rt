// Histories of calls, and what is true after each: document 01's demand 3. No code.
#![tactic(auto)]
