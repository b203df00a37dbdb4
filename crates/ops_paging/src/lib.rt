// Items of an operation handed out page by page, by definition, and what is promised of them (specs/); there is no code here.
#![tactic(auto)]
