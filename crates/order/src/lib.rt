// Positions ordered by their keys: a sort, a search in what it answers, and whether keys rise along a row.
#![tactic(auto)]

mod keys; // keys.rt: the key at a position
mod arrange; // arrange.rt: a guess at their order
mod buckets; // buckets.rt: how many keys a bucket has, and where they are to stand
mod crowded; // crowded.rt: buckets with many keys
mod check; // check.rt: whether a row is the ordered positions
pub mod sort; // sort.rt: the positions of a list of keys, ordered by key and then by position
mod numbers; // numbers.rt: equal keys get one number
pub mod repeated; // repeated.rt: the same sort, for keys of which many are equal
pub mod search; // search.rt: the first position of a key
pub mod rising; // rising.rt: whether keys rise along a row of positions
