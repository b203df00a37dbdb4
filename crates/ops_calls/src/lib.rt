// What is promised of any list of calls of an operation, refused ones among them (specs/); there is no code here.
#![tactic(auto)]
