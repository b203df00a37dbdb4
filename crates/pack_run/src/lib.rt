// The run over a whole list: its keys in their order, then the root, which goes through the cells like every other node. Its laws are in specs/; there
// is no code here.
#![tactic(auto)]
