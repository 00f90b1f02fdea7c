#![tactic(auto)]

// Document 01's figures P1 to P10, P8 as document 02's No. 6 amends it, proved of the definitions in one table; and 25.3.5 worked by hand, in
// another. It has no function.
