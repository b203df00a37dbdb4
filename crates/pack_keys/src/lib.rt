// The keys of a list added in their order: the laws of a run over all of them (specs/). There is no code here.
#![tactic(auto)]
