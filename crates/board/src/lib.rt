// The board: what the definitions say of the bench board, computed. It needs the definitions alone, so that a change to a
// crate's code proves nothing of it again.
//
// specs/ has the bench board (Board), its listing as document 01 prints it (Printed), the rows P1 to P12 (Cases), a board with
// PCI buses and its rows (Slots), the rows of new numbers for I/O APICs (Renumber) and those of the book, with the bench board
// spelled out in it (Book). proofs/ computes the printed listing (Printed), P1 to P12 under one claim (Cases), the other rows
// under their own (Slots, Renumber, Book) and the other calls on the bench board (Bench). `Computed` opens every definition at
// once and is written by .ci/lists.

#![tactic(auto)]
