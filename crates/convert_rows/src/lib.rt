// The worked rows of a conversion (specs/Rows.antt), as theorems; there is no code here.
#![tactic(auto)]
