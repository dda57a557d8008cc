//! The nodes of one tree, as the intervals of names that they stand for. Each level parts all names: a
//! node has its names from its low on, and below the low of the node behind it. Level 0 has the BINs; an IN one level up
//! has the nodes whose lows lie in its interval as its children, so no slot of it can disagree with them.
//! It stands on `record_map` for names in memory. It holds no records and no log. Upward it promises that the node over
//! a name is found, that a change leaves every other node of every level as it was, and that the lows of a level
//! stay among those of the level below it. A mark, and a node that takes another one's place, take no memory.
#![tactic(auto)]

mod due_numbers;
pub mod level;
pub mod levels;
mod marks;
pub mod node;

pub use level::Level;
pub use levels::Levels;
pub use node::Node;
