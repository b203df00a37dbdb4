// Marks, places of a plain reading to come back to: the calls by definition, and demand 3 with marks among its calls (specs/); there is no code here.
#![tactic(auto)]
