// What is accepted is what is printed, proofs/Spelling.antt: a record that is read has one spelling. It has no function.
#![tactic(auto)]
