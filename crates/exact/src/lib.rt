#![tactic(auto)]

// Laws of whole numbers with a sign, which the contracts and proofs of the other crates cite. It has no function.
