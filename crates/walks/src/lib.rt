// No code: how a function that the kit's borrow checker does not cover is walked.
#![tactic(auto)]
