// What a line asks for.
use terms::answer::Reading;
use terms::setting::Setting;

// The parents of a booking and the votes of a poll stand in the lent buffers, since there is no heap: here is how many.
#[derive(Clone, Copy)]
pub enum Command {
    Open(Setting),
    Book { name: u64, slot: u16, count: usize },
    Poll { name: u64, count: usize },
    Read { reading: Reading, name: u64 },
    List,
}
