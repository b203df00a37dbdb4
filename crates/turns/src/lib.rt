// Eight seats on one index: whose turn it is, what a dispatch does, and what is promised of it (specs/); there is no code here.
#![tactic(auto)]
