// The store of nogoods: writing into its free tail, marking one dead, closing up, and the index over them.
// Document 01, 'Variables and nogoods'; what the words mean is specs/Store.antt, and what the index means specs/Index.antt.
#![tactic(auto)]

pub mod chains;
pub mod definitions;
pub mod records;
pub mod store;

// The cells of the index that a check of document 01's lends, and the words of the store that they reach: an index may have any number
// of cells, see specs/Index.antt.
pub const LENT_CELLS: usize = 100487;

const LENT_REACH: usize = 16384;
