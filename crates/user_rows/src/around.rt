// The arrows around a user.
ghost use Rattle.std.specs.Prelude.{◌≡◌};
ghost use Rattle.certificates.specs.declared.Sign.TheVariants.{Negative, Positive};

use certificates::Near;

// The mode's arrows of both signs around a user.
#[derive(Clone, Copy, Debug)]
pub struct Around {
    pub user: usize,
    pub negative: Near,
    pub positive: Near,
    ghost denies: { negative.sign ≡ Negative },
    ghost grants: { positive.sign ≡ Positive },
}
