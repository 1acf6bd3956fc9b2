#![tactic(auto)]

// Document 01's cases marked P, in one table with one statement.
//
// There is no code here: the table is in specs/, and its proof, by computation, in proofs/.
