//! The rows of a function's tables, and the steps by which these tables grow.
//!
//! What `clif_ir` above makes into a function is plain data here: values, instructions and blocks by their numbers
//! (`specs/Nodes.antt`), the links from instruction to instruction (`specs/Links.antt`) and from block to block
//! (`specs/Places.antt`), the aliases of values in order (`aliases`), the numbers that come next and the room for them.
//! Nothing here knows what holds of a whole function.
#![tactic(auto)]

pub mod aliases;
pub mod growth;
pub mod inst_links;
pub mod links;
pub mod nodes;
pub mod placing;

pub use inst_links::{InstLink, InstLinks};
pub use nodes::{BlockData, BlockPlace, InstNode, ValueNode, ValueOrigin};
