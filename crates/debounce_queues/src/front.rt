//! The front of a queue, as the index has it.
ghost use Rattle.std.specs.Prelude.{◌≡◌, refl};
ghost use Rattle.std.specs.Ordering.{as_partial_cmp, eq_by_cmp};
ghost use Rattle.std.specs.Cmp.{eq_by_cmp_equiv, partial_equiv_from_equiv, po};
ghost use Rattle.std.specs.Cmp.Rules.{comparing};
ghost use Rattle.std.proofs.Common.{rules};
ghost use Rattle.debounce_queues.specs.Fronts.{front_cmp};
ghost use Rattle.debounce_queues.specs.FrontLaws.{front_cmp_total};

use notify_paths::PathBuf;
use notify_types::Moment;
use std::alloc::Allocator;
use std::cmp::Ordering;
use std::marker::Model;

/// The time of a queue's front, in nanoseconds, and the queue's path. Newer ones come first: what is put
/// into the index is mostly the newest, and a search then looks at the first of each node alone.
#[derive(Drop)]
pub(crate) struct Front<A: Allocator> {
    pub(crate) time: Moment,
    pub(crate) path: PathBuf<A>,
}

impl<A: Allocator> Model for Front<A> {
    ghost use Rattle.std.specs.Prelude.{ℕ};
    ghost use Rattle.notify_paths.specs.Path.{PathValue};

    ghost Value = { ℕ × PathValue };

    ghost view = { λ a. (a.time, a.path) };
}

impl<A: Allocator> PartialEq for Front<A> {
    ghost eq = { eq_by_cmp front_cmp };

    ghost laws = { partial_equiv_from_equiv (eq_by_cmp_equiv front_cmp_total) };

    fn eq(&self, other: &Front<A>) -> bool {
        self.cmp(other).is_eq()
    }
}

impl<A: Allocator> Eq for Front<A> {
    ghost laws = { eq_by_cmp_equiv front_cmp_total };
}

impl<A: Allocator> PartialOrd for Front<A> {
    ghost partial_cmp = { as_partial_cmp front_cmp };

    ghost laws = { po front_cmp_total (λ _ _. refl) };

    fn partial_cmp(&self, other: &Front<A>) -> Option<Ordering> {
        Some(self.cmp(other))
    }
}

impl<A: Allocator> Ord for Front<A> {
    ghost cmp = { front_cmp };

    ghost total = { front_cmp_total };

    ghost matches_partial_cmp = { Prim.search (comparing, rules) };

    ghost matches_eq = { Prim.search (comparing, rules) };

    fn cmp(&self, other: &Front<A>) -> Ordering {
        // Mostly the times tell it.
        if self.time != other.time {
            return other.time.cmp(&self.time);
        }
        self.path.cmp(&other.path)
    }
}
