// The setting of a ledger, its limits, and the paper's own.
ghost use Rattle.std.specs.Prelude.{◌≡◌};
ghost use Rattle.terms.specs.Setting.{is_good, paper_setting};

// k votes in a poll, a yes votes needed, beta1 and beta2, and the edition of the rules. The edition is a number: any other than the two is refused,
// with 3, and C hands it over so.
#[derive(Clone, Copy)]
pub struct Setting {
    pub k: u16,
    pub a: u16,
    pub beta1: u16,
    pub beta2: u16,
    pub edition: u16,
}

impl Setting {
    // The setting of the paper's experiments.
    pub const PAPER_K: u16 = 10;

    pub const PAPER_A: u16 = 8;

    pub const PAPER_BETA1: u16 = 11;

    pub const PAPER_BETA2: u16 = 150;

    // The limits of a good setting.
    pub const LEAST_K: u16 = 1;

    pub const MOST_K: u16 = 64;

    pub const LEAST_BETA: u16 = 1;

    pub const MOST_BETA: u16 = 510;

    // The editions of the rules: the first paper's, and the later one's.
    pub const FIRST_EDITION: u16 = 0;

    pub const LATER_EDITION: u16 = 1;

    pub fn paper() -> Setting
        ensures { result ≡ paper_setting }
    {
        Setting {
            k: Setting::PAPER_K,
            a: Setting::PAPER_A,
            beta1: Setting::PAPER_BETA1,
            beta2: Setting::PAPER_BETA2,
            edition: Setting::FIRST_EDITION,
        }
    }

    pub fn is_good(self) -> bool
        ensures { result ≡ is_good self }
    {
        let k = self.k;
        let a = self.a;
        let beta1 = self.beta1;
        let beta2 = self.beta2;
        let edition = self.edition;
        (Setting::LEAST_K <= k)
            & (k <= Setting::MOST_K)
            & (a <= k)
            & ((k as u32) < 2 * (a as u32))
            & (Setting::LEAST_BETA <= beta1)
            & (beta1 <= beta2)
            & (beta2 <= Setting::MOST_BETA)
            & (edition <= Setting::LATER_EDITION)
    }
}
