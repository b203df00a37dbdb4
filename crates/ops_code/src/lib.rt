// That a call of the code is a call of the claim on any list of calls (specs/); there is no code here.
#![tactic(auto)]
