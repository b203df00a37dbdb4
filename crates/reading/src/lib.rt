// What a reading is and what is promised of it (specs/): start and next by definition, and demand 3; there is no code here.
#![tactic(auto)]
