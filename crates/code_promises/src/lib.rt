// THE PROMISES OF THE CODE: named statements in specs/, their proofs in proofs/, from the contracts of the public functions alone. No code:
// the functions are only passed on, so that the proofs name them here, and a function of a weaker contract can be put in the place of one.
#![tactic(auto)]

pub use index::{build, enter, find};
pub use ledger::{
    accepted, book, confidence, lead, move_file, open, poll, query, read_file, size, write_file,
};
pub use station::{
    filz_accepted, filz_book, filz_confidence, filz_index_build, filz_index_enter, filz_index_find,
    filz_lead, filz_move_first, filz_move_second, filz_open, filz_poll, filz_query,
    filz_read_first, filz_read_second, filz_size, filz_write_first, filz_write_second,
};
