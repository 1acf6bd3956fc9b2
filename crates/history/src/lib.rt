#![tactic(auto)]

// Histories: a session handed from call to call, from a fresh one on.
//
// There is no code here. specs/ says what a history is and what demand 3 promises of it, in terms of
// the contracts of `aggregate` and `session`; proofs/ proves it.
