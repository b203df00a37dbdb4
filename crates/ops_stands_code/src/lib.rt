// That the readings of which `ops_stands` speaks are those that the code's own calls leave (specs/); there is no code here.
#![tactic(auto)]
