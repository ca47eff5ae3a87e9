//! A device with a latch that stays on once the device has failed.
ghost use Rattle.std.specs.{Prelude.{◌≡◌, ◌↔◌, ◌≤◌, ◌<◌, ◌++◌, [], length, take, false, IfOk, IsErr, IsTrue}, Io.ReadsAtMost};
ghost use Rattle.std.specs.Io.KnownBytes.{Consumes, IsAtEnd, Keeps, ReadConsumes};
ghost use Rattle.aout_core.specs.Wires.{Writes};

use std::io;
use std::io::{Read, Write};
use std::marker::Model;
use thiserror::Error;

/// The device of a wire failed, in this call or before it. Only a wire makes it.
#[derive(Clone, Copy, Debug, PartialEq, Eq, Error)]
#[error("device fault")]
pub struct DeviceFault(());

/// A writer that may hold bytes back, and tells contracts which.
pub trait BufferedWrite: Write {
    ghost use Rattle.std.specs.{Prelude.{◌≡◌, ℕ, List, [], OnOk}, Io.KnownBytes.Keeps};

    ghost waiting: { Self → List ℕ };

    /// Passes on all that waits; on an error some of it may wait still.
    fn pass_on(&mut self) -> io::Result<()>
        ensures bytes { Keeps (Self.contents self.old) (Self.contents self.new) }
        ensures empty { OnOk result (waiting self.new ≡ []) };
}

/// A reader or a writer with a sticky error: a latch, which says whether the device has failed.
///
/// The latch goes on if a call of the device returns an error of any kind, or if a write of some bytes takes
/// none of them. A wire whose latch is on does not touch its device again: each use of it returns `DeviceFault`. (own
/// choice)
#[derive(Drop)]
pub struct Wire<D> {
    device: D,
    has_failed: bool,
}

impl<D> Model for Wire<D> {
    ghost use Rattle.aout_core.specs.Wires.{Latched};

    ghost Value = { Latched D };

    ghost view = { λ w. record { device = w.device; has_failed = w.has_failed } };
}

impl<D> Wire<D> {
    /// The device on a wire whose latch is off.
    pub fn new(device: D) -> Wire<D>
        ensures device { result.device ≡ device }
        ensures latch { result.has_failed ≡ false }
    {
        Wire {
            device,
            has_failed: false,
        }
    }

    /// Whether the latch is on. This does not touch the device.
    pub fn failed(&self) -> bool
        ensures { result ≡ self.now.has_failed }
    {
        self.has_failed
    }

    /// The fault, if the latch is on. This does not touch the device.
    pub fn working(&self) -> Result<(), DeviceFault>
        ensures { IsErr result ↔ IsTrue self.now.has_failed }
    {
        if self.has_failed {
            return Err(DeviceFault(()));
        }
        Ok(())
    }

    /// The device back, whether the latch is on or not.
    pub fn into_inner(self) -> D
        ensures { result ≡ self.device }
    {
        let Wire {
            device,
            has_failed: _,
        } = self;
        device
    }
}

impl<R: Read> Wire<R> {
    /// Reads some bytes to the beginning of `buf`, by one call of the device; 0 are read only at its end, or if
    /// `buf` is empty. The rest of `buf` may change, unless the latch was on: then all of `buf` is as it was. (own
    /// choice)
    pub fn read(&mut self, buf: &mut [u8]) -> Result<usize, DeviceFault>
        ensures fault { IsErr result ↔ IsTrue self.new.has_failed }
        ensures latched { IsTrue self.old.has_failed → (self.new ≡ self.old) }
        ensures bound { ReadsAtMost result buf.new }
        ensures bytes { ReadConsumes
            (R.remaining self.old.device) (R.remaining self.new.device) result buf.new }
        ensures untouched { IsTrue self.old.has_failed → (buf.new ≡ buf.old) }
    {
        if self.has_failed {
            return Err(DeviceFault(()));
        }
        match self.device.read(buf) {
            Ok(n) => Ok(n),
            Err(_) => {
                self.has_failed = true;
                Err(DeviceFault(()))
            }
        }
    }

    /// Reads until `buf` is full or the device is at its end, and returns how many bytes were read. The rest of
    /// `buf` may change, unless the latch was on: then all of `buf` is as it was.
    pub(crate) fn fill(&mut self, buf: &mut [u8]) -> Result<usize, DeviceFault>
        ensures fault { IsErr result ↔ IsTrue self.new.has_failed }
        ensures latched { IsTrue self.old.has_failed → (self.new ≡ self.old) }
        ensures bound { IfOk result (λ n. n ≤ length buf.new) }
        ensures bytes { IfOk result (λ n.
            Consumes (R.remaining self.old.device) (R.remaining self.new.device) (take n buf.new)) }
        ensures end { IfOk result (λ n.
            n < length buf.new → IsAtEnd (R.remaining self.new.device)) }
        ensures untouched { IsTrue self.old.has_failed → (buf.new ≡ buf.old) }
    {
        if self.has_failed {
            return Err(DeviceFault(()));
        }
        let mut filled = 0;
        while filled < buf.len() {
            let n = self.read(&mut buf[filled..])?;
            if n == 0 {
                return Ok(filled);
            }
            filled += n;
        }
        Ok(filled)
    }
}

impl<W: Write> Wire<W> {
    /// Writes all the bytes, or on a fault a prefix of them. To write no bytes leaves the wire as it was; if the
    /// latch is on, it is a fault too.
    pub fn put(&mut self, bytes: &[u8]) -> Result<(), DeviceFault>
        ensures writes { Writes W.contents result self.old self.new bytes.now }
        ensures nothing { bytes.now ≡ [] → self.new ≡ self.old }
    {
        if self.has_failed {
            return Err(DeviceFault(()));
        }
        let mut rest = bytes;
        while !rest.is_empty() {
            match self.device.write(rest) {
                Ok(0) | Err(_) => {
                    self.has_failed = true;
                    return Err(DeviceFault(()));
                }
                Ok(n) => rest = &rest[n..],
            }
        }
        Ok(())
    }

    /// Writes some bytes and then others, or on a fault a prefix of both together.
    pub fn put_both(&mut self, first: &[u8], second: &[u8]) -> Result<(), DeviceFault>
        ensures { Writes W.contents result self.old self.new (first.now ++ second.now) }
    {
        self.put(first)?;
        self.put(second)
    }

    /// Has the device pass on what it may hold back.
    pub fn flush(&mut self) -> Result<(), DeviceFault>
        ensures fault { IsErr result ↔ IsTrue self.new.has_failed }
        ensures latched { IsTrue self.old.has_failed → (self.new ≡ self.old) }
        ensures bytes { Keeps (W.contents self.old.device) (W.contents self.new.device) }
    {
        if self.has_failed {
            return Err(DeviceFault(()));
        }
        match self.device.flush() {
            Ok(()) => Ok(()),
            Err(_) => {
                self.has_failed = true;
                Err(DeviceFault(()))
            }
        }
    }
}

impl<W: BufferedWrite> Wire<W> {
    /// Has the device pass on all that it holds back, so that nothing waits.
    pub fn pass_on(&mut self) -> Result<(), DeviceFault>
        ensures fault { IsErr result ↔ IsTrue self.new.has_failed }
        ensures latched { IsTrue self.old.has_failed → (self.new ≡ self.old) }
        ensures bytes { Keeps (W.contents self.old.device) (W.contents self.new.device) }
        ensures empty { IfOk result (λ _. W.waiting self.new.device ≡ []) }
    {
        if self.has_failed {
            return Err(DeviceFault(()));
        }
        if self.device.pass_on().is_err() {
            self.has_failed = true;
            return Err(DeviceFault(()));
        }
        Ok(())
    }
}
