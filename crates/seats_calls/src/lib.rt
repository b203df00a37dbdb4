// What is promised of eight seats, of the code's own calls (specs/); there is no code here.
#![tactic(auto)]
