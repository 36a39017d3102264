//! Who works at the pieces of a parallel phase.

ghost use Rattle.std.specs.Prelude.{◌≤◌};

/// So many workers, each in a thread of its own where one can be started, and the gate that those of some phases pass.
#[derive(Drop)]
pub struct Workers<'a, R, G> {
    /// What starts threads.
    pub rt: &'a R,
    /// How many there are, 1 to 64.
    pub count: u32,
    pub gate: &'a G,
    ghost in_range: { (1 ≤ count) × (count ≤ 64) },
}
