// Plain readings, which hold the number of keys still to come, and what is promised of that number (specs/); there is no code here.
#![tactic(auto)]
