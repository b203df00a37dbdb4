// A long list in two sittings, stated and proved of plain readings (specs/); there is no code here.
#![tactic(auto)]
