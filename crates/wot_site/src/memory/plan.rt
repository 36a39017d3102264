//! Which calls of a site in memory fail.

ghost use Rattle.std.specs.Prelude.{◌≡◌, ◌<◌, ◌↔◌, vec_len, IsTrue};
ghost use Rattle.std.specs.List.{Contains};
ghost use Rattle.std.specs.Option.{ForSome};
ghost use Rattle.wot_site.specs.Stop.{IsStopped};

/// The kinds of calls, whose numbers are counted apart.
#[derive(Clone, Copy, Debug, PartialEq, Eq)]
pub enum CallKind {
    Take,
    Tell,
    Size,
    Read,
    Write,
    Sync,
}

/// Which calls fail, and how many bytes pass in one.
#[derive(Drop)]
pub struct Plan {
    // The calls that fail, each by its kind and its number from 1.
    pub fails: Vec<(CallKind, u32)>,
    // The device call from which on all fail.
    pub stop: Option<u32>,
    // At most how many bytes pass in one call of the streams.
    pub cut: Option<u32>,
    ghost some_pass: { ForSome cut (λ most. 0 < most) },
}

impl Plan {
    /// Whether the call of that kind and number is planned to fail.
    pub fn has_call(&self, kind: CallKind, number: u64) -> bool
        ensures { IsTrue result ↔ Contains self.now.fails.items (kind, number) }
    {
        self.fails
            .iter()
            .any(|call| call.0 == kind && u64::from(call.1) == number)
    }

    /// Whether the stop covers the device call with this number.
    pub fn is_stopped(&self, number: u64) -> bool
        ensures { IsTrue result ↔ IsStopped self.now.stop number }
    {
        match self.stop {
            Some(n) => u64::from(n) <= number,
            None => false,
        }
    }
}
