// How many members a booking's ancestry has: the ones of its eight words.
ghost use Rattle.std.specs.Prelude.{◌≡◌, ◌<◌};
ghost use Rattle.rules.specs.Layout.{bookings};
ghost use Rattle.rules.specs.Readings.{size_of};
ghost use Rattle.rules.specs.Sound.{Ledger};

// The size of booking i.
pub fn size_of(w: &[u16], i: usize) -> usize
    requires { Ledger w.now × (i < bookings w.now) }
    ensures { result ≡ size_of w.now i }
{
    let mut m = [0u64; bits::BIT_WORDS];
    ancestry::gather_ancestry(w, &mut m, i);
    bits::count_set(&m)
}
