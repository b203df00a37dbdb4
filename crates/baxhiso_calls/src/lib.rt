// Demand 3 for C: fst_count, fst_start_arrays and every list of calls of fst_next_arrays, by their contracts alone (specs/); there is no code here.
#![tactic(auto)]
