// No code: what a finished tree guarantees, over the definitions of merging, of the journal and of trees.
#![tactic(auto)]
