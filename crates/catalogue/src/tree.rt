// A catalogue of at most 64 nodes, where "/" counts as one, in the order of their paths.
use crate::node::Node;
use paths::Path;
use std::marker::Model;
use tables::Table;

#[derive(Drop)]
pub struct Catalogue {
    pub(crate) nodes: Table<Path, Node, 64>,
}

// Clauses see its nodes.
impl Model for Catalogue {
    ghost use Rattle.catalogue.specs.Nodes.{Nodes};

    ghost Value = { Nodes };

    ghost view = { λ c. c.nodes };
}
