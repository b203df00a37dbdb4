// Where each reading of an operation stands after an item and at the end, with its total (specs/); there is no code here.
#![tactic(auto)]
