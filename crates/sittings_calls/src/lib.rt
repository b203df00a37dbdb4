// A long list in two sittings, of the code's own calls of start and next (specs/); there is no code here.
#![tactic(auto)]
