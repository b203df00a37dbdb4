// Demand 3 of the code: a start and every list of calls of next, by their contracts alone (specs/); there is no code here.
#![tactic(auto)]
