//! The references of a terminal.

ghost use Rattle.std.specs.Prelude.{◌≡◌, ◌%◌, ◌^◌, if◌then◌else◌};
ghost use Rattle.rand_pcg.specs.Lcg.{Lcg};
ghost use Rattle.rand_pcg.specs.Pcg.{pcg32};
ghost use Rattle.lapd_sides.specs.User.{seeded, next_reference, advanced};

use rand_core::SeedableRng;
use rand_core::utils::NextWord;
use rand_pcg::Pcg32;

/// The references that a terminal puts into its TEI messages (Ri, Q.921 5.3.2), 0 to 65,535. Each
/// is the low sixteen bits of a word of the random number generator.
#[derive(Drop)]
pub struct References {
    /// The next reference.
    next: u16,
    /// The generator of the references after it.
    rest: Pcg32,
}

impl References {
    ghost use Rattle.lapd_sides.specs.ShowsUser.{ShowReferences};

    /// Seeds the generator, and draws the first reference.
    pub fn new(seed: u64) -> References
        ensures { ShowReferences result (seeded seed) }
    {
        let mut rest = Pcg32::seed_from_u64(seed);
        let next = low_sixteen(rest.next_word());
        References { next, rest }
    }

    /// The next reference.
    pub fn next(&self) -> u16
        ensures { (random : Lcg) → ShowReferences self.now random → result ≡ next_reference random }
    {
        self.next
    }

    /// Advances to the following reference if the next one was sent.
    pub fn advance_if(&mut self, sent: bool)
        ensures { (random : Lcg) → ShowReferences self.old random
            → ShowReferences self.new (if sent then advanced (pcg32 random) else random) }
    {
        if sent {
            self.next = low_sixteen(self.rest.next_word());
        }
    }
}

/// The low sixteen bits of a word.
fn low_sixteen(word: u32) -> u16
    ensures { result ≡ word % 2 ^ 16 }
{
    (word & 0xFFFF) as u16
}
