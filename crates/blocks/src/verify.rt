// Checks 15 to 17 of a block.
ghost use Rattle.std.specs.Prelude.{◌≡◌, take};
ghost use Rattle.tables.specs.Refusals.{verdict_of};
ghost use Rattle.blocks.specs.Fnv.{fnv1a};
ghost use Rattle.blocks.specs.Blocks.{head_of, wrong_filler, block_fault};
ghost use Rattle.blocks.specs.Steps.{number32, all_zero};

use super::{Block, Check, Head};
use tables::{Refusal, refuse_if};

// Whether all bytes are zero. It looks at each, so that the compiler may take many at a time.
fn all_zero(s: &[u8]) -> bool
    ensures { result ≡ all_zero s.now }
{
    s.iter().fold(0, |any, b| any | *b) == 0
}

impl Block<'_> {
    // The check of bytes 0 to 507.
    fn computed_check(self) -> u32
        ensures { result ≡ fnv1a (take 508 self.entry.bytes.now) }
    {
        let bytes = self.bytes;
        Check::fresh().part(&bytes[..Check::COVERED]).state
    }

    // The check that stands in bytes 508 to 511.
    fn stored_check(self) -> u32
        ensures { result ≡ number32 self.entry.bytes.now 508 }
    {
        let b = self.bytes;
        u32::from_le_bytes([b[508], b[509], b[510], b[511]])
    }

    // Whether a byte from the records' end to byte 507 is not zero.
    fn wrong_filler(self, head: Head) -> bool
        ensures { result ≡ wrong_filler head self.entry.bytes.now }
    {
        let bytes = self.bytes;
        let end = head.records_end();
        end < Check::COVERED && !all_zero(&bytes[end..Check::COVERED])
    }

    // Refusals 15, 16 and 17 of the block at a place, by its head and the kind of the block before, 0 where there is none.
    // Kept: no Option for that kind, since the definitions `kind_before` and `block_fault` have 0.
    pub fn check_by(self, head: Head, before: u8, place: usize) -> Result<(), Refusal>
        requires { head ≡ head_of self.bytes.now }
        ensures { result ≡ verdict_of (block_fault before place self.entry.bytes.now) }
    {
        let wrong_check = self.computed_check() != self.stored_check();
        refuse_if(wrong_check, Refusal::BadCheck(place))?;
        refuse_if(head.wrong(before, place), Refusal::BadHead(place))?;
        refuse_if(self.wrong_filler(head), Refusal::BadFiller(place))
    }

    // The same for a caller that holds no head.
    pub fn check(self, before: u8, place: usize) -> Result<(), Refusal>
        ensures { result ≡ verdict_of (block_fault before place self.entry.bytes.now) }
    {
        self.check_by(self.head(), before, place)
    }
}
