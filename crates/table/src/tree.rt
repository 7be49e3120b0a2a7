// The tree: a slice of records and the link of its root. No record of another place changes. The two are arguments, and that a tree stands
// there, or that a place is within the slice, is owed by each function: a struct that lends them would be two, one for `&` and one for
// `&mut`, and what is said of a tree would stand at both.
pub(crate) mod balance;
pub(crate) mod edit;
pub(crate) mod find;
pub(crate) mod path;
pub(crate) mod replace;
