// The worked rows of marks (specs/MarksTable.antt), as theorems; there is no code here.
#![tactic(auto)]
