// No code: words about lists that several crates' definitions use, and the laws of those words.
#![tactic(auto)]
