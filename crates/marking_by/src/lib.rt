// Marks of a reading by pattern: demand 3 by pattern with marks among its calls (specs/); there is no code here.
#![tactic(auto)]
