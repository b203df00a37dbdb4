// What packing a list is and what is promised of its result (specs/): the list, the registry and the run by definition; there is no code here.
#![tactic(auto)]
