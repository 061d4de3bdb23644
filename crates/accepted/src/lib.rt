// What an accepted table is like: the rows that it has passed as facts, the entries that it is cut into, what tells its
// header fields, and what an edit leaves as it was.
//
// Nothing here runs, and nothing here belongs to the judge's code: each law is about the definitions of mps. The judge, the
// listing, the queries, the writer, the editor and the promises cite them.
#![tactic(auto)]
