//! What a part of an expression reaches at a place of the text.

ghost use Rattle.std.specs.Prelude.{◌≡◌};
ghost use Rattle.wot_regex.specs.Reaching.{exits, marked, one_after_another, one_or_another, optional, passing};

/// A place of the text: whether it is the start, and whether it is the end.
#[derive(Clone, Copy, Debug)]
pub struct Place {
    pub start: bool,
    pub end: bool,
}

/// Whether a part matches no bytes at a place, and whether a match of it that began before ends there.
#[derive(Clone, Copy, Debug, PartialEq, Eq)]
pub struct Reach {
    pub passes: bool,
    pub ended: bool,
}

impl Reach {
    pub const NONE: Reach = Reach {
        passes: false,
        ended: false,
    };

    pub const EVERYWHERE: Reach = Reach {
        passes: true,
        ended: true,
    };

    pub fn passing(passes: bool) -> Reach
        ensures { result ≡ passing passes }
    {
        Reach {
            passes,
            ended: false,
        }
    }

    pub fn marked(ended: bool) -> Reach
        ensures { result ≡ marked ended }
    {
        Reach {
            passes: false,
            ended,
        }
    }

    /// Whether a match may end at the place, where one may begin there if `entry` is true.
    pub fn exits(self, entry: bool) -> bool
        ensures { result ≡ exits self entry }
    {
        entry & self.passes | self.ended
    }

    pub fn followed(self, next: Reach) -> Reach
        ensures { result ≡ one_after_another self next }
    {
        Reach {
            passes: self.passes & next.passes,
            ended: next.ended | self.ended & next.passes,
        }
    }

    pub fn either(self, other: Reach) -> Reach
        ensures { result ≡ one_or_another self other }
    {
        Reach {
            passes: self.passes | other.passes,
            ended: self.ended | other.ended,
        }
    }

    pub fn optional(self) -> Reach
        ensures { result ≡ optional self }
    {
        Reach {
            passes: true,
            ended: self.ended,
        }
    }
}
