// Goals, and the nodes and rows that show what becomes of them.
use crate::atoms::Atoms;
use crate::formula::Formula;
use req_model::Request;
use rx_auto::Words;
use sqlite_items::Items;
use text_base::{Field, Text};

/// A condition on requests: a formula over its atoms.
#[derive(Drop)]
pub struct Goal {
    pub atoms: Atoms,
    pub formula: Formula,
}

/// A node of a tree of splits. Behind a split stand the tree where its atom is true and then the one where it is false.
#[derive(Drop)]
pub enum Node {
    /// The atom is decided both ways.
    Split { atom: u32 },
    /// The goal is false already.
    False,
    /// The field is there and isn't.
    Clash { field: Field },
    /// No valid text of the field is as the path says.
    Closed { field: Field, words: Words },
    /// This part wasn't looked at.
    Rest,
    /// The field has more states than were allowed.
    Capped { field: Field, words: Words },
}

/// A line of a report: what becomes of the route at this place.
#[derive(Drop)]
pub struct Row {
    pub route: Text,
    pub body: RowBody,
}

/// A request that is sent to the route, or nodes that show that there is none, or that the search was given up.
#[derive(Drop)]
pub enum RowBody {
    Reached(Request),
    Refuted(Items<Node>),
    Undecided {
        nodes: Items<Node>,
        splits: u32,
        states: u32,
    },
}
