// Definitions and their laws: what every call of document 01 means. No code.
#![tactic(auto)]
