// No code: what a node that pack_close finishes in the two cells of its row alone leaves there, and that it leaves the same in the whole table (specs/).
#![tactic(auto)]
