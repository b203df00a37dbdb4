// A reading carried to another file, and what is promised of it (specs/); there is no code here.
#![tactic(auto)]
