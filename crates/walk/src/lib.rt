#![tactic(auto)]

// How the two walks go through the tree: from neighbour to neighbour by links, with what comes after
// each neighbour laid by.
//
// There is no code here: these are what the functions of the walks ask for and leave, in specs/, and
// the laws by which they do, in proofs/.
