// How long ago a thing was sent, in seconds, up to a limit at which it is due again.
ghost use Rattle.std.specs.Prelude.{◌≡◌};
ghost use Rattle.places.specs.SendCounts.{due, fresh_count, raised, sent_count};

#[derive(Clone, Copy)]
pub struct SendCount {
    seconds: u8,
}

impl SendCount {
    // Of a new thing, which is due at once.
    // Stays: as a const parameter the one limit would stand in the type of each count and line (docs/DECISIONS.md).
    pub fn fresh(limit: u8) -> SendCount
        ensures { result ≡ fresh_count limit }
    {
        SendCount { seconds: limit }
    }

    // Of a thing that is sent now.
    pub fn sent() -> SendCount
        ensures { result ≡ sent_count }
    {
        SendCount { seconds: 0 }
    }

    // A second later; a count stops at the limit.
    pub fn raise(&mut self, limit: u8)
        ensures { self.new ≡ raised self.old limit }
    {
        self.seconds = self.seconds.saturating_add(1).min(limit);
    }

    pub fn is_due(&self, limit: u8) -> bool
        ensures { result ≡ due self.now limit }
    {
        self.seconds >= limit
    }
}
