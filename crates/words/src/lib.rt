// Leaf readers and writers of the lent words. All index arithmetic lives here: everything above says header, record or slot entry.
// Words are lent as slices, and each contract asks for their length: hosts lend any words, and a type that asks for it would ask more of callers.
// Records and slot entries have readers and writers of their own: one over constants would promise offsets, where these promise the law's words.
#![tactic(auto)]

ghost use Rattle.std.specs.Prelude.{◌≡◌, ◌<◌, ◌≤◌, ◌*◌, ◌+◌, length, eqb};
ghost use Rattle.std.proofs.lemmas.List.Edits.{sets};
ghost use Rattle.loops.specs.Fill.{from};
ghost use Rattle.loops.specs.Total.{bit};
ghost use Rattle.rules.specs.Layout.{
  size,
  most_bookings,
  most_parents,
  record_words,
  slots,
  slot_words,
  header_words,
  record_at,
  k_field,
  header,
  field,
  entry,
  with_header,
  with_field,
  with_entry,
  name_of,
  parent_of,
  state_of,
};

use rules::layout;
use terms::vote;
use terms::vote::State;

// A word as a wider number: `usize::from`, with the bound that callers need.
pub fn wide(x: u16) -> usize
    ensures { (result ≡ x) × (result < 65536) }
{
    usize::from(x)
}

// Word f of the header.
pub fn header(w: &[u16], f: usize) -> u16
    requires { (length w.now ≡ size) × (f < header_words) }
    ensures { result ≡ header w.now f }
{
    let word = w[f];
    word
}

// The four words of the setting that stand beside each other: k, a, beta1, beta2. The edition stands apart.
pub fn setting(w: &[u16]) -> &[u16]
    requires { length w.now ≡ size }
    ensures { result.now ≡ from (header w.now) k_field 4 }
{
    let start = layout::K;
    let end = layout::POLLS;
    &w[start..end]
}

pub fn set_header(w: &mut [u16], f: usize, v: u16)
    requires { (length w.old ≡ size) × (f < header_words) }
    ensures { w.new ≡ with_header w.old f v }
{
    w[f] = v;
}

// Word f of record i.
pub fn field(w: &[u16], i: usize, f: usize) -> u16
    requires { (length w.now ≡ size) × (i < most_bookings) × (f < record_words) }
    ensures { result ≡ field w.now i f }
{
    w[layout::HEADER_WORDS + layout::RECORD_WORDS * i + f]
}

// So many words of record i, from word f on.
pub fn fields(w: &[u16], i: usize, f: usize, count: usize) -> &[u16]
    requires { (length w.now ≡ size) × (i < most_bookings) × (f + count ≤ record_words) }
    ensures { result.now ≡ from (field w.now i) f count }
{
    let start = layout::HEADER_WORDS + layout::RECORD_WORDS * i + f;
    let end = start + count;
    &w[start..end]
}

// Word f of record i, as a wider number.
pub fn wide_field(w: &[u16], i: usize, f: usize) -> usize
    requires { (length w.now ≡ size) × (i < most_bookings) × (f < record_words) }
    ensures { result ≡ field w.now i f }
{
    usize::from(field(w, i, f))
}

pub fn set_field(w: &mut [u16], i: usize, f: usize, v: u16)
    requires { (length w.old ≡ size) × (i < most_bookings) × (f < record_words) }
    ensures { w.new ≡ with_field w.old i f v }
{
    let at = layout::HEADER_WORDS + layout::RECORD_WORDS * i + f;
    w[at] = v;
}

// The words of record i from word f on become those of a row.
pub fn set_fields(w: &mut [u16], i: usize, f: usize, row: &[u16])
    requires { (length w.old ≡ size) × (i < most_bookings) × (f + length row.now ≤ record_words) }
    ensures { w.new ≡ sets w.old (record_at i f) row.now }
{
    let place = layout::HEADER_WORDS + layout::RECORD_WORDS * i + f;
    w[place..place + row.len()].copy_from_slice(row);
}

// Word f of slot entry s.
pub fn entry(w: &[u16], s: usize, f: usize) -> u16
    requires { (length w.now ≡ size) × (s < slots) × (f < slot_words) }
    ensures { result ≡ entry w.now s f }
{
    w[layout::SLOTS_START + layout::SLOT_WORDS * s + f]
}

// Word f of slot entry s, as a wider number.
pub fn wide_entry(w: &[u16], s: usize, f: usize) -> usize
    requires { (length w.now ≡ size) × (s < slots) × (f < slot_words) }
    ensures { result ≡ entry w.now s f }
{
    usize::from(entry(w, s, f))
}

pub fn set_entry(w: &mut [u16], s: usize, f: usize, v: u16)
    requires { (length w.old ≡ size) × (s < slots) × (f < slot_words) }
    ensures { w.new ≡ with_entry w.old s f v }
{
    let at = layout::SLOTS_START + layout::SLOT_WORDS * s + f;
    w[at] = v;
}

// The name of record i: four words, highest part first.
pub fn name(w: &[u16], i: usize) -> u64
    requires { (length w.now ≡ size) × (i < most_bookings) }
    ensures { result ≡ name_of w.now i }
{
    let a = u64::from(field(w, i, 0));
    let b = u64::from(field(w, i, 1));
    let c = u64::from(field(w, i, 2));
    let d = u64::from(field(w, i, 3));
    ((a * 65536 + b) * 65536 + c) * 65536 + d
}

// 1 for a record in state 2, else 0.
pub fn chit(w: &[u16], i: usize) -> usize
    requires { (length w.now ≡ size) × (i < most_bookings) }
    ensures { result ≡ bit (eqb (state_of w.now i) 2) }
{
    usize::from(matches!(vote::read_state(field(w, i, layout::STATE)), State::Chit))
}

// The parent at place a of booking j, or 65535. No Option: the contract is of the word as it stands.
pub fn parent(w: &[u16], j: usize, a: usize) -> usize
    requires { (length w.now ≡ size) × (j < most_bookings) × (a < most_parents) }
    ensures { result ≡ parent_of w.now j a }
{
    usize::from(field(w, j, layout::PARENTS + a))
}
