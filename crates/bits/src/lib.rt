// Bits, 64 to a word. In a row of words no bit is set past the end, and setting one there changes nothing.
#![tactic(auto)]

ghost use Rattle.std.specs.Prelude.{◌≡◌, ◌+◌, ◌*◌, ◌/◌, ◌^◌, ◌<◌, ◌≤◌, min, eqb, length};
ghost use Rattle.std.specs.Int.Bits.{bit_or};
ghost use Rattle.loops.specs.Total.{count};
ghost use Rattle.bits.specs.Bits.{bit_in, bit_at, with_bit, ones_in};
ghost use Rattle.bits.specs.Members.{bit_words};

pub const WORD_BITS: usize = 64;

// How many words have a bit for each booking, or for each ordinal.
pub const BIT_WORDS: usize = 8;

// Whether bit k of a word is set.
pub fn has_bit(word: u64, k: usize) -> bool
    requires { k < 64 }
    ensures { result ≡ eqb (bit_in word k) 1 }
{
    (word >> k) % 2 == 1
}

// The word with bit k set too.
pub fn with_bit(word: u64, k: usize) -> u64
    requires { k < 64 }
    ensures { result ≡ bit_or word (2 ^ k) }
{
    word | (1u64 << k)
}

// Whether bit j of a row of words is set.
pub fn is_set(bits: &[u64], j: usize) -> bool
    ensures { result ≡ bit_at bits.now j }
{
    if j / WORD_BITS < bits.len() {
        return has_bit(bits[j / WORD_BITS], j % WORD_BITS);
    }
    false
}

// Sets bit j of a row of words.
pub fn set_bit(bits: &mut [u64], j: usize)
    ensures { bits.new ≡ with_bit j bits.old }
{
    let q = j / WORD_BITS;
    if q < bits.len() {
        bits[q] = with_bit(bits[q], j % WORD_BITS);
    }
}

// Where the numbers of j's word end, or n.
pub fn word_end(j: usize, n: usize) -> usize
    requires { j < 64 * bit_words }
    ensures { result ≡ min n (64 * (j / 64) + 64) }
{
    (WORD_BITS * (j / WORD_BITS) + WORD_BITS).min(n)
}

// How many bits of a word are set. Of its own for its bound, which a sum of them needs.
fn ones(word: u64) -> usize
    ensures { (result ≡ ones_in word) × (result ≤ 64) }
{
    word.count_ones() as usize
}

// How many bits of eight words are set: their ones, summed.
pub fn count_set(bits: &[u64]) -> usize
    requires { length bits.now ≡ bit_words }
    ensures { result ≡ count (bit_at bits.now) (64 * bit_words) }
{
    bits.iter().map(|word| ones(*word)).sum()
}
