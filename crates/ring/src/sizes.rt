ghost use Rattle.std.specs.Prelude.{◌≡◌, ◌*◌, ◌≤◌, true};
ghost use Rattle.ring.specs.Sizes.{is_size};

use crate::Refusal;

// The sizes of a ring: one that may be made.
#[derive(Clone, Copy, Debug, PartialEq, Eq)]
pub struct Sizes {
    // how many indices the ring keeps
    pub places: usize,
    // how many stations may call
    pub stations: usize,
    // the ticket at which no counter moves on
    pub limit: usize,
    pub ghost sized: { is_size places ≡ true },
    pub ghost small: { (1 ≤ places) × (places ≤ 64) },
    pub ghost crewed: { (1 ≤ stations) × (stations ≤ places) },
    pub ghost limited: { (4 * places ≤ limit) × (limit ≤ 999999999) },
}

impl Sizes {
    ghost use Rattle.std.specs.Prelude.{IfOk};
    ghost use Rattle.ring.specs.Sizes.{make_checked, Checked};
    ghost use Rattle.ring.specs.Meaning.{viewed};

    // The sizes, or the first refusal that fits.
    pub fn new(places: usize, stations: usize, limit: usize) -> Result<Sizes, Refusal>
        ensures values { IfOk result (λ sizes. (sizes.places ≡ places) × (sizes.stations ≡ stations) × (sizes.limit ≡ limit)) }
        ensures outcome { viewed (λ _. tt) result ≡ make_checked places stations limit }
        ensures meaning { Checked places stations limit (viewed (λ _. tt) result) }
    {
        if !matches!(places, 1 | 2 | 4 | 8 | 16 | 32 | 64) {
            return Err(Refusal::Places);
        }
        if stations == 0 || stations > places {
            return Err(Refusal::Stations);
        }
        if limit < 4 * places || limit > 999_999_999 {
            return Err(Refusal::Limit);
        }
        Ok(Sizes {
            places,
            stations,
            limit,
        })
    }
}
