// No code: what the contract of `pack` says of a file that it answers with.
#![tactic(auto)]
