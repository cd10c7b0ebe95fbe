//! How many events went before a script's first command.
ghost use Rattle.std.specs.Prelude.{◌≡◌};
ghost use Rattle.mirror_run.specs.Script.{no_counts, counts_of};

use std::marker::Model;

/// How many events were taken and how many were emitted: no more than were taken.
#[derive(Drop)]
pub struct Counts {
    pub taken: u64,
    pub given: u64,
}

impl Model for Counts {
    ghost use Rattle.std.specs.Prelude.{◌≤◌};
    ghost use Rattle.mirror_run.specs.Script.{CountsValue};

    ghost Value = { CountsValue };

    ghost view = { λ a. record { taken = a.taken; given = a.given } };

    ghost invariant = { λ a. a.given ≤ a.taken };
}

impl Counts {
    pub fn none() -> Counts
        ensures { result ≡ no_counts }
    {
        Counts { taken: 0, given: 0 }
    }

    /// The counts of these numbers, where they are counts.
    pub fn new(taken: u64, given: u64) -> Option<Counts>
        ensures { result ≡ counts_of taken given }
    {
        if taken < given {
            return None;
        }
        Some(Counts { taken, given })
    }
}
