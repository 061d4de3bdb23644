// Laws of the definitions: what the crates above may use of the words of mps without opening them.
//
// Nothing here runs. A law that speaks of one leaf's definition stands with that leaf (sums, numbers, slices,
// tables, sets); here are those that belong to no leaf, or to several.

#![tactic(auto)]
