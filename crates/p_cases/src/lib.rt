// No code: document 01's P cases, over the definitions of all crates.
#![tactic(auto)]
