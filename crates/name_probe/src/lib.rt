// Probing on 1,024 lent cells: from a name's home up by one and round, for a name or for an empty cell.
// Cells are lent as a slice, as hosts lend them.
#![tactic(auto)]

ghost use Rattle.std.specs.Prelude.{◌≡◌, ◌<◌, ◌≤◌, length};
ghost use Rattle.loops.specs.Search.{found_below};
ghost use Rattle.rules.specs.Layout.{size, most_bookings, bookings};
ghost use Rattle.name_index.specs.Index.{cells, is_empty, probe, look_up_in};

use name_index::cells;

// The first empty cell from cell h on, if there is one.
pub fn free_cell(index: &[u16], h: usize) -> Option<usize>
    requires { (length index.now ≡ cells) × (h < cells) }
    ensures { result ≡ found_below cells (probe is_empty index.now h) }
{
    (0..cells::CELLS)
        .map(|t| (h + t) % cells::CELLS)
        .find(|c| index[*c] == cells::EMPTY)
}

// The number of the booking with the name, by any index. An empty cell ends it, and a number that is no booking's is passed over.
// A loop that ends by break is the form that document 01 names.
pub fn find(w: &[u16], index: &[u16], name: u64) -> Option<usize>
    requires { (length w.now ≡ size) × (bookings w.now ≤ most_bookings) × (length index.now ≡ cells) }
    ensures { result ≡ look_up_in w.now index.now name }
{
    let n = booking_reads::booking::how_many(w);
    let h = name_hash::home(name);
    let mut t = 0;
    loop {
        if t == cells::CELLS {
            break None;
        }
        let held = index[(h + t) % cells::CELLS];
        t += 1;
        if held == cells::EMPTY {
            break None;
        }
        let i = words::wide(held);
        if n <= i {
            continue;
        }
        if words::name(w, i) == name {
            break Some(i);
        }
    }
}
