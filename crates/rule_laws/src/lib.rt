// What follows from the law, in proofs/: laws of the definitions in rules/specs, cited by every proof above. No code.

#![tactic(auto)]
