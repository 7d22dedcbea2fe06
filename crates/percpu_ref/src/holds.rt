//! A hold as a value.
ghost use Rattle.std.specs.Prelude.{◌≡◌, ◌∷◌, ◌<◌, []};
ghost use Rattle.percpu_ref.specs.Holds.{the_hold};

use target_table::seats::Part;

/// A hold on a disk's reference, which another seat may put. It has to be put.
pub struct Hold<S> {
    /// What carries it from seat to seat.
    pub part: Part<S>,
    /// The disk.
    pub disk: u32,
    pub ghost one: { part.base.me.0.view.holds ≡ the_hold part.base.me.0.view.holds ∷ [] },
    pub ghost disk_is: { disk ≡ (the_hold part.base.me.0.view.holds).disk },
    pub ghost alone: { (part.left ≡ 0) × (part.base.me.0.view.entries ≡ [])
        × (part.base.me.0.claims ≡ []) },
}

impl<S> Hold<S> {
    /// The disk that it holds.
    pub fn disk(&self) -> u32
        ensures { result ≡ self.now.disk }
    {
        self.disk
    }
}
