//! A line while it is being made.
use itoa::Buffer;
use std::marker::Model;
use texts::OctalBuffer;

/// How many bytes a line may have.
pub(crate) const LINE_CAPACITY: usize = 64;

/// The bytes of a line, in an array. Contracts see it as the list of its bytes.
#[derive(Drop)]
pub struct LineBuffer {
    bytes: [u8; LINE_CAPACITY],
    len: usize,
}

impl Model for LineBuffer {
    ghost use Rattle.std.specs.Prelude.{ℕ, List};

    ghost Value = { List ℕ };

    ghost use Rattle.std.specs.Prelude.{◌≤◌, take};
    ghost use Rattle.symtools.specs.declared.buffer.TheConstants.{LINE_CAPACITY};

    ghost view = { λ a. take a.len a.bytes };

    ghost invariant = { λ a. a.len ≤ LINE_CAPACITY };
}

impl LineBuffer {
    ghost use Rattle.std.specs.Prelude.{◌≡◌, ◌+◌, ◌≤◌, ◌++◌, [], decimal, length};
    ghost use Rattle.texts.specs.Numbers.{octal};
    ghost use Rattle.symtools.specs.declared.buffer.TheConstants.{LINE_CAPACITY};

    /// A line of no bytes.
    pub(crate) fn new() -> LineBuffer
        ensures { result ≡ [] }
    {
        LineBuffer {
            bytes: [0; LINE_CAPACITY],
            len: 0,
        }
    }

    /// Appends bytes.
    pub(crate) fn push(&mut self, more: &[u8])
        requires { length self.old + length more.now ≤ LINE_CAPACITY }
        ensures value { self.new ≡ self.old ++ more.now }
        ensures len { length self.new ≡ length self.old + length more.now }
    {
        let end = self.len + more.len();
        self.bytes[self.len..end].copy_from_slice(more);
        self.len = end;
    }

    pub(crate) fn push_decimal(&mut self, number: u16)
        requires { length self.old + 5 ≤ LINE_CAPACITY }
        ensures value { self.new ≡ self.old ++ decimal number }
        ensures len { length self.new ≤ length self.old + 5 }
    {
        self.push(Buffer::new().format(number).as_bytes());
    }

    /// Appends a sum of such numbers, in decimal.
    pub(crate) fn push_sum(&mut self, sum: u32)
        requires { length self.old + 10 ≤ LINE_CAPACITY }
        ensures value { self.new ≡ self.old ++ decimal sum }
        ensures len { length self.new ≤ length self.old + 10 }
    {
        self.push(Buffer::new().format(sum).as_bytes());
    }

    pub(crate) fn push_octal(&mut self, sum: u32)
        requires { length self.old + 22 ≤ LINE_CAPACITY }
        ensures value { self.new ≡ self.old ++ octal sum }
        ensures len { length self.new ≤ length self.old + 22 }
    {
        self.push(OctalBuffer::new().format(u64::from(sum)));
    }

    /// The bytes of the line.
    pub fn as_bytes(&self) -> &[u8]
        ensures { result.now ≡ self.now }
    {
        &self.bytes[..self.len]
    }
}
