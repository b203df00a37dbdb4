// A range page after page for C: every list of calls of fst_range_rows, each from the last key of the one before, by its contract alone
// (specs/); there is no code here.
#![tactic(auto)]
