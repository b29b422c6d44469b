// What the search answers.
use goal_form::Node;
use req_model::Request;
use sqlite_items::Items;

/// A request that meets the goal, or nodes that show that there is none, or nodes of a search that was given up.
#[derive(Drop)]
pub enum Finding {
    Reached(Request),
    Refuted(Items<Node>),
    Undecided(Items<Node>),
}

/// What stands at a path: a request, a leaf, or the atom of the next split.
#[derive(Drop)]
pub enum Look {
    Reached(Request),
    Leaf(Node),
    Open(u32),
}
