// The watches of a search with two watched literals, of which nothing is promised but bounds and an end. All that is
// kept stands in the cells that it is lent, so that no function here asks for anything but small numbers.
//
// A literal's code is the number itself modulo 16,384, found without a branch on its sign; 0 stands for a literal that
// is true in every nogood, and no literal has the code 8,192. A node is 2 · place + (0 or 1), for the first and the
// second watch of the nogood at a place; which of the two is a number, no enum, since cells are reckoned with it. A
// cell holds a place or a node that may be none as one more, or 0.
//
// The nodes that watch a literal are its list. With few cells that is a chain through the cells of the nodes, with many
// it is a row, in pieces that each hold some watches one after another, so that little memory is gone through.
//
// The root is what is true without any assumption. Where a nogood has a literal that the root makes false, it is not to
// be looked at as long as the root stays: its watches wait in the list of that literal, which is not gone through.
#![tactic(auto)]

pub mod cells;
mod chains;
pub mod lists;
pub mod literals;
pub mod pieces;
pub mod rows;
pub mod turns;
