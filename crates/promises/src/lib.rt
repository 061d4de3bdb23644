// Promises: theorems that speak of several floors of the house at once. docs/PROMISES.md goes through the three demands
// clause by clause and names the theorem of each. What is computed on the bench board stands in `board`, what is said of
// contracts in `contracts`.
//
// specs/ states what they speak of beside the definitions of mps: the numbers that each call may give (Numbered), the routes
// that a table declares (Declared), the links that an answer has climbed, and the answer of before ask 5
// (Climbed), the fields that a listing shows and how
// they are read again (Shown), what a run of edits makes (Runs), PCI slots and their order (Slots), which number is the lowest
// free (Renumber), which I/O APICs are wrong (IoApics), a good book row by row (GoodBooks), and the rows that a run of saves
// and restores adds (Books). proofs/ has
// - demand 1: the numbers of every call (Numbered) and what a refusal leaves (Kept), both of a book in BookNumbers;
// - demand 2: "given exactly when" for 1 to 18 (Given), that the judge answers that number and what decides among 10 to 12
//   (Judge); that a listing's lines are those of the table (Listed) and can be read again (Legible); that the routes are those
//   that the table declares (Routes); the parent's answer and the links climbed (Addresses), by a falling number that never
//   runs out (Climb); writing and reading again (Headers, Again); the reader's own stand beside its code (reader, Walk);
// - demand 3: refused as changed exactly when (Edits), the same as written afresh and no other byte (Fresh), over any run
//   (Runs), changed and changed back (Back);
// - of document 02: the input of a PCI slot (Slots, SlotRoutes) and the listing of slots (SlotList, over SlotCodes); the new
//   numbers of I/O APICs (Renumber), and when 16 is given (IoApics); of the book of earlier tables each number "given exactly
//   when" (BookNumbers), which book is bad and how editions run (GoodBooks), that nothing is lost over any run (Books), and
//   what is read of it: bodies, what a restore brings back (BookReads); what a bus sees through its parent, and what of that
//   is as before (Unclaimed).
#![tactic(auto)]
