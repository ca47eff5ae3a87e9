//! A text that grows, and remembers whether memory ran out for it.
ghost use Rattle.std.specs.Prelude.{◌≡◌, ◌∷◌, [], true, false, decimal, IfOk, IsErr};
ghost use Rattle.texts.specs.Numbers.{six_digits, octal};
ghost use Rattle.texts.specs.{Names.{escaped, printable_byte, printable_bytes, printable_name}, Columns.blanks};
ghost use Rattle.texts.specs.Texts.{nothing_written, Puts};

use crate::names::{escaped, is_printable};
use crate::numbers::{OctalBuffer, six_digits};
use itoa::Buffer;
use std::alloc::{AllocError, Global};
use std::fmt::{self, Display, Formatter, Write};
use std::marker::Model;

/// A text that grows. Once memory runs out for it the text is cut: it takes nothing more, and `finish` returns the error. So
/// what is put needs no test of its own.
#[derive(Drop)]
pub struct Text {
    bytes: Vec<u8>,
    refused: Option<AllocError>,
}

impl Model for Text {
    ghost use Rattle.std.specs.Option.{is_some};
    ghost use Rattle.texts.specs.Texts.{Written};

    ghost Value = { Written };

    ghost view = { λ t. record { bytes = t.bytes.items; is_cut = is_some t.refused } };
}

impl Text {
    /// A text of no bytes.
    pub fn new(alloc: Global) -> Text
        ensures { result ≡ nothing_written }
    {
        Text {
            bytes: Vec::new(alloc),
            refused: None,
        }
    }

    /// Where the text has its memory.
    pub fn allocator(&self) -> Global {
        *self.bytes.allocator()
    }

    /// Puts bytes at the end.
    pub fn put_bytes(&mut self, bytes: &[u8])
        ensures { Puts self.old self.new bytes.now }
    {
        if self.refused.is_none()
            && let Err(error) = self.bytes.extend_from_slice(bytes)
        {
            self.refused = Some(error);
        }
    }

    /// Puts characters at the end.
    pub fn put(&mut self, characters: &str)
        ensures { Puts self.old self.new characters.now }
    {
        self.put_bytes(characters.as_bytes());
    }

    /// Puts a byte at the end.
    pub fn put_byte(&mut self, byte: u8)
        ensures { Puts self.old self.new (byte ∷ []) }
    {
        if self.refused.is_none()
            && let Err(error) = self.bytes.push(byte)
        {
            self.refused = Some(AllocError::from(error));
        }
    }

    /// Cuts the text: memory ran out for something that belongs into it.
    pub fn cut(&mut self, refused: AllocError)
        ensures { self.new.is_cut ≡ true }
    {
        self.refused = Some(refused);
    }

    /// Puts the last six octal digits of a number at the end.
    pub fn put_six_digits(&mut self, number: u32)
        ensures { Puts self.old self.new (six_digits number) }
    {
        self.put_bytes(&six_digits(number));
    }

    /// Puts a number in octal at the end, with no zeros in front.
    pub fn put_octal(&mut self, number: u64)
        ensures { Puts self.old self.new (octal number) }
    {
        self.put_bytes(OctalBuffer::new().format(number));
    }

    /// Puts a number in decimal at the end.
    pub fn put_decimal(&mut self, number: u64)
        ensures { Puts self.old self.new (decimal number) }
    {
        self.put(Buffer::new().format(number));
    }

    /// Puts a byte at the end as a backslash and three octal digits.
    pub fn put_escaped(&mut self, byte: u8)
        ensures { Puts self.old self.new (escaped byte) }
    {
        self.put_bytes(&escaped(byte));
    }

    /// Puts a byte of a name at the end: as it is if it is printable, and else as a backslash and three octal digits.
    pub fn put_printable_byte(&mut self, byte: u8)
        ensures { Puts self.old self.new (printable_byte byte) }
    {
        if is_printable(byte) {
            self.put_byte(byte);
        } else {
            self.put_escaped(byte);
        }
    }

    /// Puts bytes of a name at the end, each as `put_printable_byte` does.
    pub fn put_printable_bytes(&mut self, bytes: &[u8])
        ensures { Puts self.old self.new (printable_bytes bytes.now) }
    {
        for byte in bytes {
            self.put_printable_byte(*byte);
        }
    }

    /// Puts a name at the end, each byte as `put_printable_byte` does. An empty name is `\000`, so that a column has something.
    pub fn put_printable_name(&mut self, name: &[u8])
        ensures { Puts self.old self.new (printable_name name.now) }
    {
        if name.is_empty() {
            self.put_printable_byte(0);
        } else {
            self.put_printable_bytes(name);
        }
    }

    /// Puts blanks at the end.
    pub fn put_blanks(&mut self, count: usize)
        ensures { Puts self.old self.new (blanks count) }
    {
        for _ in 0..count {
            self.put_byte(b' ');
        }
    }

    /// Puts bytes at the end, and then blanks up to this width. More bytes than that are not cut.
    pub fn put_at_left(&mut self, width: usize, bytes: &[u8]) {
        self.put_bytes(bytes);
        self.put_blanks(width.saturating_sub(bytes.len()));
    }

    /// Puts what a format says at the end.
    pub fn say<D: Display + Drop>(&mut self, what: D) {
        let _ = write!(self, "{what}");
    }

    /// Makes the text empty, and keeps its memory for what is put next.
    pub fn clear(&mut self)
        ensures { self.new ≡ nothing_written }
    {
        self.bytes.clear();
        self.refused = None;
    }

    /// The bytes so far. An error, out of memory, if the text is cut.
    pub fn so_far(&self) -> Result<&[u8], AllocError>
        ensures bytes { IfOk result (λ bytes. (self.now.is_cut ≡ false) × (bytes.now ≡ self.now.bytes)) }
        ensures memory { IsErr result → self.now.is_cut ≡ true }
    {
        match &self.refused {
            Some(error) => Err(*error),
            None => Ok(&self.bytes),
        }
    }

    /// The bytes. An error, out of memory, if the text is cut.
    pub fn finish(self) -> Result<Vec<u8>, AllocError>
        ensures bytes { IfOk result (λ bytes. (self.is_cut ≡ false) × (bytes.items ≡ self.bytes)) }
        ensures memory { IsErr result → self.is_cut ≡ true }
    {
        let Text { bytes, refused } = self;
        match refused {
            Some(error) => Err(error),
            None => Ok(bytes),
        }
    }
}

impl fmt::Write for Text {
    fn write_str(&mut self, characters: &str) -> fmt::Result {
        self.put(characters);
        Ok(())
    }
}

/// Bytes of a name or a path in a format, each as `put_printable_byte` does.
#[derive(Clone, Copy)]
pub struct Printable<'a>(pub &'a [u8]);

impl Display for Printable<'_> {
    fn fmt<W: fmt::Write>(&self, f: &mut Formatter<W>) -> fmt::Result {
        for byte in self.0 {
            if is_printable(*byte) {
                write!(f, "{}", *byte as char)?;
            } else {
                write!(f, "\\{:03o}", *byte)?;
            }
        }
        Ok(())
    }
}
