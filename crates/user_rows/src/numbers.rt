// Where the numbers of certificates go.
ghost use Rattle.std.specs.Prelude.{◌≡◌, cond, ℕ, get_or};
ghost use Rattle.boxsets.specs.Sets.{is_in};

use boxsets::Set;
use tables::BoxRow;

// What is done with the number of a certificate and the files that it settles.
pub trait Numbers {
    // the number that stands for each file
    ghost shows: { Self → (ℕ → ℕ) → Type 0 };

    fn put(&mut self, hit: Set, number: u16)
        ensures { (after : ℕ → ℕ) → shows self.old after → shows self.new (λ f. cond (is_in hit f) number (after f)) };
}

// Who asks for no numbers keeps none.
impl Numbers for () {
    ghost shows = { λ _ _. Unit {0} };

    fn put(&mut self, hit: Set, number: u16) {}
}

// A place for each box.
impl Numbers for [u16; BoxRow::LIMIT] {
    ghost shows = { λ numbers after. (f : ℕ) → get_or numbers f 0 ≡ after f };

    fn put(&mut self, hit: Set, number: u16) {
        for f in hit {
            self[f] = number;
        }
    }
}
