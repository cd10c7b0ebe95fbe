//! Closures as handlers.
use crate::handler::DebounceEventHandler;

impl<T, F: FnMut(T) + Send + Drop + 'static> DebounceEventHandler<T> for F {
    ghost ready = { λ f. F.IsAlwaysCallable f };

    ghost handles = { λ f event g. F.step f event tt g };

    fn handle_event(&mut self, event: T) {
        self(event)
    }
}
