// THE LAW OF THE NAME INDEX, in specs/, its laws and cases, in proofs/. No code but its numbers: what hashes a name is in `name_hash`, what
// probes in `name_probe`, and the calls stand in `known_index` and `index`.
#![tactic(auto)]

pub mod cells;
