//! The status of what was done without a fault.
ghost use Rattle.std.specs.Prelude.{◌≡◌, ◌≤◌, max};

use std::marker::Model;

/// A status: 0, or 1 if there was something to report, or if a session refused a line or could not store a link. A fault has none:
/// the program then ends with 2.
#[derive(Clone, Copy)]
pub(crate) struct Status {
    code: u8,
}

impl Model for Status {
    ghost use Rattle.std.specs.Prelude.{ℕ, ◌≤◌};

    ghost Value = { ℕ };

    ghost view = { λ status. status.code };

    ghost invariant = { λ status. status.code ≤ 1 };

    ghost inverse = { λ code. record { code = code } };
}

impl Status {
    /// The status that is this number.
    pub(crate) fn new(code: u8) -> Status
        requires { code ≤ 1 }
        ensures { result ≡ code }
    {
        Status { code }
    }

    /// Its number.
    pub(crate) fn code(self) -> u8
        ensures value { result ≡ self }
        ensures small { result ≤ 1 }
    {
        self.code
    }

    /// The larger of two.
    pub(crate) fn max(self, other: Status) -> Status
        ensures { result ≡ max self other }
    {
        Status {
            code: self.code.max(other.code),
        }
    }
}
