// Ground floor: definitions that recurse as loops count, in specs/, and their laws, in proofs/. No code, and no word of the product.

#![tactic(auto)]
