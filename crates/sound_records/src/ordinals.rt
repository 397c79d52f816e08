// Which ordinals are held, as a bit for each.
ghost use Rattle.std.specs.Prelude.{◌≡◌, ◌+◌};
ghost use Rattle.bits.specs.Bits.{bit_at};
ghost use Rattle.loops.specs.Search.{all};
ghost use Rattle.sound_records.specs.Ordinals.{SeenTo};

// Whether each ordinal from 1 to p is seen. 0 is, and none above p: so there are p + 1 bits exactly if they all are.
pub(crate) fn all_seen(seen: &[u64], p: usize) -> bool
    requires { SeenTo p seen.now }
    ensures { result ≡ all (λ o. bit_at seen.now (o + 1)) p }
{
    bits::count_set(seen) == p + 1
}
