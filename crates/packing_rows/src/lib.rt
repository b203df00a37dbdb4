// No code: the working tables of packing as rows of open nodes, and what finishing a node and adding a key do to them.
#![tactic(auto)]
