// THE LAW OF THE DAY FILE, in specs/, its laws and cases, in proofs/. No code but where the parts of a file stand: what writes one is
// in `day_put`, `day_rows`, `day_sections` and `known_write`, what reads one in `day_get`, `day_judge`, `day_marks`, `day_replay` and `day_remark`, and what moves one in
// `day_move`.
#![tactic(auto)]

pub mod bytes;
