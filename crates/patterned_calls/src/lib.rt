// Demand 3 by pattern, of the code's own calls (specs/): no code of its own.
#![tactic(auto)]
