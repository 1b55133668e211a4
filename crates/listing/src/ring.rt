// How the places of a ring, counted from its opening on, are numbered.
ghost use Rattle.std.specs.Prelude.{◌≡◌, ◌<◌, ◌≤◌};
ghost use Rattle.pooling.specs.Limits.{most_ring_bins};

// Place s is bin opening + s, round the ring.
#[derive(Clone, Copy)]
pub(crate) struct Ring {
    pub opening: usize,
    pub bins: usize,
    ghost in_ring: { opening < bins },
    ghost small: { bins ≤ most_ring_bins },
}

impl Ring {
    ghost use Rattle.listing.specs.Numbers.{past_last, bin_at_place};

    // Whether a place lies past the last bin.
    pub(crate) fn is_past_last(self, place: u32) -> bool
        ensures { result ≡ past_last self.opening self.bins place }
    {
        self.bins <= self.opening + place as usize
    }

    // The bin at a place.
    pub(crate) fn bin_at(self, place: u32) -> u32
        ensures { result ≡ bin_at_place self.opening self.bins place }
    {
        ((self.opening + place as usize) % self.bins) as u32
    }
}
