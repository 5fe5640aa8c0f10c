//! Generated ids (docs/PROFILE.md, "Made ids").
ghost use Rattle.std.specs.Prelude.{◌≡◌, ◌<◌, ◌^◌};
ghost use Rattle.script_databases.specs.MadeIds.{made_id, of_number, next_place};

use rand_chacha::ChaCha8Rng;
use rand_core::SeedableRng;
use uuid::Uuid;

/// The number of ids after which the stream of random numbers repeats.
const IDS: u128 = 1 << 66;

/// A generator of ids. The random generator is ChaCha with 8 rounds, and an id takes four 32-bit words. The generator's
/// key is the seed as 8 bytes, least significant first, and 24 zeros.
#[derive(Drop)]
pub struct MadeIds {
    pub seed: u64,
    /// The number of generated ids.
    pub drawn: u128,
}

impl MadeIds {
    /// Starts the stream of random numbers that a seed determines.
    pub fn new(seed: u64) -> MadeIds
        ensures { result ≡ record { seed = seed; drawn = 0 } }
    {
        MadeIds { seed, drawn: 0 }
    }

    /// Generates the next id, which is a version 4 UUID from the next 16 bytes of the stream.
    pub fn draw(&mut self) -> u128
        ensures id { result ≡ made_id self.old.seed self.old.drawn }
        ensures next { self.new ≡ record self.old { drawn = next_place self.old.drawn } }
    {
        let place = self.drawn % IDS;
        let mut rng = rng_of(self.seed);
        rng.set_word_pos(4 * place);
        let id = Uuid::new_v4(&mut rng);
        self.drawn = (place + 1) % IDS;
        id.as_u128()
    }
}

/// Returns the random generator that a seed determines, at the beginning of its stream.
fn rng_of(seed: u64) -> ChaCha8Rng
    ensures { result ≡ of_number seed }
{
    let mut key = [0u8; 32];
    key[..8].copy_from_slice(&seed.to_le_bytes());
    ChaCha8Rng::from_seed(key)
}
