// A reading by pattern with marks, carried to its file's conversion, and marks set there (specs/); there is no code here.
#![tactic(auto)]
