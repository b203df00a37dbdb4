// A range handed out page by page, by definition, and what is promised of it (specs/); there is no code here.
#![tactic(auto)]
