#![tactic(auto)]

// The demands on one page, proofs/Demands.antt, each proved by citing what the other crates prove. It has no function.
