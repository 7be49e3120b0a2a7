// One balanced tree for any key, in a slice of records that are linked by index, and the tables over it.
#![tactic(auto)]

mod chain;
pub mod key;
pub mod least;
pub mod node;
mod side;
pub mod table;
mod tree;

pub use key::{Key, LengthKey};
pub use least::least_nodes;
pub use node::{Beside, Entry};
pub use table::{LengthTable, StartTable, Table};
