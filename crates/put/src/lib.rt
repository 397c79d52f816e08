// What a writer leaves in a lent buffer, in specs/, and its laws, in proofs/. No code.

#![tactic(auto)]
