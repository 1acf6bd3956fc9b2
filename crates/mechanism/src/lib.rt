#![tactic(auto)]

// The lease mechanism: what a combine and a write say, what they make of a session, and when they
// are refused.
//
// There is no code here: these are definitions, in specs/, and laws about them, in proofs/. They are
// stated over any operation and any break count.
