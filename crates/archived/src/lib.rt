#![tactic(auto)]

// What is promised of the archive, proofs/ArchiveDemands.antt: a sheet that moves comes back and is settled alike. It has no function.
