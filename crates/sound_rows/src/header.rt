// Is the header in order: what its rule in document 01 says, and what the tests of the other rows may count on.
ghost use Rattle.std.specs.Prelude.{◌≡◌, length};
ghost use Rattle.rules.specs.Layout.{size, setting_in};
ghost use Rattle.rules.specs.IsSound.{header_good};

use rules::layout;
use terms::setting::Setting;

// The setting that the ledger was opened with.
fn setting(w: &[u16]) -> Setting
    requires { length w.now ≡ size }
    ensures { result ≡ setting_in w.now }
{
    Setting {
        k: words::header(w, layout::K),
        a: words::header(w, layout::A),
        beta1: words::header(w, layout::BETA1),
        beta2: words::header(w, layout::BETA2),
        edition: words::header(w, layout::EDITION),
    }
}

pub fn header_good(w: &[u16]) -> bool
    requires { length w.now ≡ size }
    ensures { result ≡ header_good w.now }
{
    let n = words::wide(words::header(w, layout::BOOKINGS));
    let p = words::wide(words::header(w, layout::POLLS));
    (1 <= n)
        & (n <= layout::MOST_BOOKINGS)
        & setting(w).is_good()
        & (p < n)
        & (words::header(w, layout::SPARE) == 0)
}
