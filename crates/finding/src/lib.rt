// A page of keys by pattern in one call, by definition, and what is promised of it (specs/); there is no code here.
#![tactic(auto)]
