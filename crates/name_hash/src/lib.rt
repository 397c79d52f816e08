// The 32-bit FNV-1a hash of a name's eight bytes, highest first, and the cell of an index where probing for the name begins.
#![tactic(auto)]

ghost use Rattle.std.specs.Prelude.{◌≡◌, ◌<◌};
ghost use Rattle.name_index.specs.Hash.{hashed, hash_of};
ghost use Rattle.name_index.specs.Index.{cells, home};

use name_index::cells;

// What the hash starts from, and what it is multiplied by. The law has the same numbers.
const START: u32 = 2166136261;

const PRIME: u32 = 16777619;

// One byte more: xor, then a multiplication that wraps.
fn fnv_step(hash: u32, byte: u8) -> u32
    ensures { result ≡ hashed hash byte }
{
    (hash ^ u32::from(byte)).wrapping_mul(PRIME)
}

// The eight bytes, highest first, one step each.
fn hash(name: u64) -> u32
    ensures { result ≡ hash_of name }
{
    name.to_be_bytes()
        .iter()
        .fold(START, |hash, byte| fnv_step(hash, *byte))
}

// Where a name's probing begins.
pub fn home(name: u64) -> usize
    ensures { (result ≡ home name) × (result < cells) }
{
    (hash(name) as usize) % cells::CELLS
}
