// Worked rows of the operations over several files (specs/); there is no code here.
#![tactic(auto)]
