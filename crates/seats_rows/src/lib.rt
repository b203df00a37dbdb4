// The worked rows of eight seats on one index (specs/SeatsTable.antt), as theorems; there is no code here.
#![tactic(auto)]
