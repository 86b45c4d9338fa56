// The steps that the calls are made of, and their laws. No code.
#![tactic(auto)]
