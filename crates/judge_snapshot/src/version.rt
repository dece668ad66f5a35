//! Versions of a state.

ghost use Rattle.std.specs.Prelude.{◌≡◌, IfOk};

use judge_object::Span;
use std::alloc::AllocError;
use std::marker::Model;
use std::rc::Rc;

/// The state after a commit, the write set that the commit installed, and the interval of its
/// call.
#[derive(Drop)]
pub(crate) struct Version<S, W> {
    state: Rc<S>,
    written: W,
    span: Span,
}

impl<S, W> Model for Version<S, W> {
    ghost use Rattle.judge_snapshot.specs.Snapshots as spec;

    ghost Value = { spec.Version S W };

    ghost view = { λ v. record { state = v.state.value; written = v.written; span = v.span } };
}

impl<S: Drop, W: Drop> Version<S, W> {
    /// A version.
    pub(crate) fn new(state: Rc<S>, written: W, span: Span) -> Version<S, W>
        ensures { result ≡ record { state = state.value; written = written; span = span } }
    {
        Version {
            state,
            written,
            span,
        }
    }

    /// Returns the state.
    pub(crate) fn state(&self) -> &S
        ensures { result.now ≡ self.now.state }
    {
        &self.state
    }

    /// Returns the state, which is shared.
    pub(crate) fn share_state(&self) -> Result<Rc<S>, AllocError>
        ensures { IfOk result (λ shared. shared.value ≡ self.now.state) }
    {
        Ok(self.state.clone()?)
    }

    /// Returns the write set.
    pub(crate) fn written(&self) -> &W
        ensures { result.now ≡ self.now.written }
    {
        &self.written
    }

    /// Returns the interval of the call, with its client.
    pub(crate) fn span(&self) -> Span
        ensures { result ≡ self.now.span }
    {
        self.span
    }
}
