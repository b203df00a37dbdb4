// The worked rows of a reading carried to another file (specs/CarryRows.antt), as theorems; there is no code here.
#![tactic(auto)]
