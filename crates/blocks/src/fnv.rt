// The check of a block, FNV-1a.
ghost use Rattle.std.specs.Prelude.{◌≡◌, [], ◌∷◌, ◌*◌, ◌%◌, ◌^◌};
ghost use Rattle.blocks.specs.Fnv.{fnv_fold, fnv1a};

// a * b modulo 2^32.
// Kept: document 01 asks for a helper with this meaning ("The forms we use").
fn wrapping_mul_u32(a: u32, b: u32) -> u32
    ensures { result ≡ a * b % 2 ^ 32 }
{
    a.wrapping_mul(b)
}

// The running check of a block.
#[derive(Clone, Copy)]
pub struct Check {
    pub state: u32,
}

impl Check {
    pub const START: u32 = 2166136261;

    pub const PRIME: u32 = 16777619;

    // Of a block it covers so many bytes.
    pub const COVERED: usize = 508;

    // The check of no byte.
    pub fn fresh() -> Self
        ensures { result.state ≡ fnv1a [] }
    {
        Self { state: Self::START }
    }

    // The check with one byte more.
    pub fn byte(self, b: u8) -> Self
        ensures { result.state ≡ fnv_fold self.state (b ∷ []) }
    {
        Self {
            state: wrapping_mul_u32(self.state ^ u32::from(b), Self::PRIME),
        }
    }

    // The check with the bytes of a part more.
    pub fn part(self, s: &[u8]) -> Self
        ensures { result.state ≡ fnv_fold self.state s.now }
    {
        let mut c = self;
        for b in s {
            c = c.byte(*b);
        }
        c
    }
}
