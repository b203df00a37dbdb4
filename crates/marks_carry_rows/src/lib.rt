// Worked rows of a reading with marks carried to another file (specs/); there is no code here.
#![tactic(auto)]
