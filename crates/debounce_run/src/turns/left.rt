//! What a debouncer's thread leaves of its handler.

/// What is left of a handler once the debouncer's thread has ended.
pub trait Leaves: Send + Drop + 'static {
    ghost use Rattle.debounce_run.specs.Access.Happened.{History};

    /// What was emitted, from what was there at the start to what is left.
    ghost tells: { Self → Self → History → Type 0 };
}

/// How a handler ends.
pub trait Ending<H, L> {
    /// What it makes of a handler.
    ghost ends: { H → L → Type 0 };

    /// Returns what is left of the handler.
    fn end(handler: H) -> L
        ensures { ends handler result };
}

/// Nothing is left of a handler. It is the end of one that nobody asks for.
#[derive(Drop)]
pub struct Forgotten;

impl Leaves for Forgotten {
    ghost tells = { λ _ _ _. Unit {0} };
}

impl<H: Drop> Ending<H, Forgotten> for Forgotten {
    ghost ends = { λ _ _. Unit {0} };

    fn end(handler: H) -> Forgotten {
        drop(handler);
        Forgotten
    }
}

/// The handler itself is left.
pub struct Returned;

impl<H> Ending<H, H> for Returned {
    ghost use Rattle.std.specs.Prelude.{◌≡◌};

    ghost ends = { λ h l. l ≡ h };

    fn end(handler: H) -> H {
        handler
    }
}
