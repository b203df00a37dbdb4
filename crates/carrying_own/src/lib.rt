// What a carried reading is, between a file and its conversion and within one file (specs/); there is no code here.
#![tactic(auto)]
