// A version 1 file brought to version 2 (specs/): the new file and the table of new addresses by definition, and what is promised of
// them; there is no code here.
#![tactic(auto)]
