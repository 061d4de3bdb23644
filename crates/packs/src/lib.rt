// Numbers packed into one by their widths in bits, and taken out again: what the calls for C answer is made of this.
//
// Nothing here runs. specs/Packs.antt has the packing over any list of widths; proofs/Laws.antt that numbers which fit
// their widths come out as they went in.

#![tactic(auto)]
