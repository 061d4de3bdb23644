// What a good book is like: where its rows and bodies stand, that its rows are read again as they were written, and what one
// row more makes of it. Of any layout, but for how many rows a book of layout 1 has, how far on one of them
// can stand, and that layout 1 can be read again.
//
// Nothing here runs: each law is about the definitions of mps, and `book`, `saving` and the promises cite them.
#![tactic(auto)]
