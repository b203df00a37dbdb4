// Page after page of an operation: what is left after a page is what the next one is asked for (specs/); there is no code here.
#![tactic(auto)]
