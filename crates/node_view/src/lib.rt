// A node as a view: the lent file and the node's address (src/raw/node.rs, `Node<'f>`, which holds the node's numbers beside its bytes).
// The view judges nothing when it is made: each question judges the node.
#![tactic(auto)]

ghost use Rattle.std.specs.Prelude.{◌≡◌};
ghost use Rattle.format.specs.Node.{node_at};
ghost use Rattle.format.specs.View.{fst_is};
ghost use Rattle.format.specs.Paths.{node_in};
ghost use Rattle.node.specs.Read.{Judges};
ghost use Rattle.node_view.specs.View.{view_with, transition_in, place_in};

use format::{FstRef, Transition};
use node::Unsound;

// The node at addr of a file.
#[derive(Clone, Copy)]
pub struct Node<'f> {
    pub fst: FstRef<'f>,
    pub addr: usize,
}

impl<'f> Node<'f> {
    // The view of the node at addr.
    pub fn new(fst: FstRef<'f>, addr: usize) -> Node<'f>
        ensures { result ≡ view_with fst.entry addr }
    {
        Node { fst, addr }
    }

    // What judging the node says.
    pub fn judged(self) -> Result<node::Node, Unsound>
        ensures { Judges self.entry.fst.bytes.now self.entry.fst.version self.entry.fst.root self.entry.addr result }
    {
        node::node_at(self.fst, self.addr)
    }

    // Transition i of the node, for any i: none where the node is not sound or has no transition i.
    pub fn transition(self, i: usize) -> Option<Transition>
        ensures { result ≡ transition_in
            (node_at self.entry.fst.bytes.now self.entry.fst.version self.entry.fst.root self.entry.addr) i }
    {
        let m = self.judged().ok()?;
        let n = m.ntrans;
        if i < n {
            return Some(node::transition(self.fst.bytes, m, i));
        }
        None
    }

    // The place of the input b in the node, or `Err` with that of the first greater input. In a node that is not sound a place would mean nothing.
    pub fn find_input(self, b: u8) -> Result<Result<usize, usize>, Unsound>
        ensures { result ≡ place_in
            (node_at self.entry.fst.bytes.now self.entry.fst.version self.entry.fst.root self.entry.addr) b }
    {
        let m = self.judged()?;
        Ok(node::find_input(self.fst.bytes, m, b))
    }
}

// Transition i of the node at addr, for callers that have no view.
pub fn transition_at(fst: FstRef<'_>, addr: usize, i: usize) -> Option<Transition>
    ensures { result ≡ transition_in (node_in (fst_is fst.entry) addr) i }
{
    Node::new(fst, addr).transition(i)
}
