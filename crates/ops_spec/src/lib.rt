// What union, intersection, difference and symmetric difference over several plain readings are, and what is promised of them (specs/); there is no
// code here.
#![tactic(auto)]
