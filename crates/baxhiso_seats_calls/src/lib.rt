// Eight seats for C: every list of calls of fst_seat_arrays, fst_raise_arrays and fst_dispatch_arrays, by their contracts alone (specs/); there is no code here.
#![tactic(auto)]
