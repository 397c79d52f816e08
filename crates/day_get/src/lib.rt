// Numbers and names off a file's bytes, high byte first, from an offset on. A byte that was read is below 256, so the file holds the bytes of the number given.
#![tactic(auto)]

ghost use Rattle.std.specs.Prelude.{◌≡◌, ◌++◌, ◌+◌, ◌*◌, ◌≤◌, length, drop};
ghost use Rattle.rules.specs.Layout.{most_parents};
ghost use Rattle.day_file.specs.Bytes.{number_bytes, name_bytes, joined};
ghost use Rattle.day_file.specs.Decode.{read_number, read_many};
ghost use Rattle.day_file.specs.InTurn.{places};

use rules::layout;

// A number of two bytes.
pub fn number_at(file: &[u8], at: usize) -> u16
    requires { at + 2 ≤ length file.now }
    ensures { drop at file.now ≡ number_bytes result ++ drop (at + 2) file.now }
{
    let bytes = file[at..].first_chunk().unwrap();
    u16::from_be_bytes(*bytes)
}

// A name of eight bytes.
pub fn name_at(file: &[u8], at: usize) -> u64
    requires { at + 8 ≤ length file.now }
    ensures { drop at file.now ≡ name_bytes result ++ drop (at + 8) file.now }
{
    let bytes = file[at..].first_chunk().unwrap();
    u64::from_be_bytes(*bytes)
}

// So many parents' numbers, in the parent places of a record; nothing past them. The count is a place and, twice, an offset.
pub fn parents_at(file: &[u8], at: usize, count: usize) -> [u16; layout::MOST_PARENTS]
    requires { (count ≤ most_parents) × (at + 2 * count ≤ length file.now) }
    ensures { (result ≡ places (read_many read_number count (drop at file.now)).value) × (drop at file.now ≡ joined number_bytes (read_many read_number count (drop at file.now)).value ++ drop (at + 2 * count) file.now) }
{
    let mut places = [layout::NONE; layout::MOST_PARENTS];
    for a in 0..count {
        places[a] = number_at(file, at + 2 * a);
    }
    places
}
