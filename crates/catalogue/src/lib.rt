// A small file tree of directories, files and links, as a scanner.
#![tactic(auto)]

mod arriving;
mod editing;
pub mod node;
pub mod scanning;
pub mod tree;
mod way;

pub use node::Node;
pub use tree::Catalogue;
