//! Where a text goes while it is printed.

ghost use Rattle.std.specs.Prelude.{◌≡◌, ℕ, List, [], ◌∷◌, ◌++◌, OnOk};

/// What takes the bytes of a text, one after the other.
pub trait Sink {
    /// Why it takes no more.
    type Error;

    // the ghost name of the reference that it holds, where it holds one
    ghost name: { Self → ℕ };

    // these bytes were added
    ghost adds: { Self → List ℕ → Self → Type 0 };

    /// Adds a byte at the end.
    fn push(&mut self, byte: u8) -> Result<(), Self::Error>
        ensures same { name self.new ≡ name self.old }
        ensures adds { OnOk result (adds self.old (byte ∷ []) self.new) };

    /// Adds bytes at the end.
    fn push_bytes(&mut self, bytes: &[u8]) -> Result<(), Self::Error>
        ensures same { name self.new ≡ name self.old }
        ensures adds { OnOk result (adds self.old bytes.now self.new) };

    ghost none: { (text : Self) → adds text [] text };

    ghost both: { (old now new : Self) (a b : List ℕ) → adds old a now → adds now b new → adds old (a ++ b) new };
}
