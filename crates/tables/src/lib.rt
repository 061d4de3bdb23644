// The two constant tables of document 01: the bus names, and the predefined ranges of I/O addresses.
//
// Each table stands in a module of its own, with the one function that looks into it; beside that of the names stand two
// tests of a name as a number, whether it is that of PCI and a quick one, which spares the look where it holds. Each function
// answers what one definition says, of mps's specs/Buses.antt and specs/Ranges.antt and of specs/Quick.antt, for every
// argument: none has a `requires`. The laws that callers cite stand in proofs/Laws.antt.
#![tactic(auto)]

pub mod names; // MPS Table 4-8
pub mod ranges; // MPS Table 4-17
