// What a reading by pattern is and what is promised of it (specs/): start and next by definition, and demand 3 for it; there is no code here.
#![tactic(auto)]
