//! A session, out of a handle and into it.
ghost use Rattle.std.specs.Prelude.{◌≡◌, None, Some, IsNone, IfSome};
ghost use Rattle.libv7.specs.SessionLeft.{kept_by};

use crate::loose::Loose;
use crate::session_handle::Handle;
use crate::slot::Slot;
use link_session::Session;
use std::alloc::Global;
use std::mem;

impl Handle {
    /// The session, out of the handle.
    pub(crate) fn take(&mut self, alloc: Global) -> Option<Box<Session>>
        ensures value { IfSome result (λ b. kept_by self.old ≡ Some b.value) }
        ensures none { IsNone result → (kept_by self.old ≡ None) × (self.new ≡ self.old) }
        ensures closed { kept_by self.new ≡ None }
    {
        if self.is_open == 0 {
            return None;
        }
        self.is_open = 0;
        let slot = mem::replace(&mut self.state, Slot::empty(alloc));
        Some(slot.into_loose().into_box())
    }

    pub(crate) fn put(&mut self, session: Box<Session>)
        ensures { kept_by self.new ≡ Some session.value }
    {
        self.state = Slot::of(Loose::of(session));
        self.is_open = 1;
    }
}
