ghost use Rattle.std.specs.Prelude.{◌≡◌, true, false, not};

/// Whether something fails since a while, so that its failure is said once and not at each call.
#[derive(Drop)]
pub struct Outage {
    lasts: bool,
}

impl Outage {
    /// Nothing has failed yet.
    pub fn none() -> Self
        ensures { result.lasts ≡ false }
    {
        Outage { lasts: false }
    }

    /// A call has failed. Says whether no other has failed since the last one that worked.
    pub fn begins(&mut self) -> bool
        ensures first { result ≡ not self.old.lasts }
        ensures lasts { self.new.lasts ≡ true }
    {
        let begins = !self.lasts;
        self.lasts = true;
        begins
    }

    /// A call has worked.
    pub fn ends(&mut self)
        ensures { self.new.lasts ≡ false }
    {
        self.lasts = false;
    }
}
