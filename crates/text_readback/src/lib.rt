// A number that is printed is read back as the same: proofs/Decimals.antt joins what `text_put` writes and what `line_number` reads.

#![tactic(auto)]
