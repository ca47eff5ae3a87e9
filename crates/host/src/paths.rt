//! Paths as they are shown. Only tested: the text.
use std::fmt::{self, Display, Formatter, Write};
use texts::Printable;

/// A path in a format: the bytes of a control character as a backslash and three octal digits each, so that none moves the cursor of a
/// terminal or begins a line.
#[derive(Clone, Copy)]
pub struct Path<'a>(pub &'a str);

impl Display for Path<'_> {
    fn fmt<W: Write>(&self, f: &mut Formatter<W>) -> fmt::Result {
        for character in self.0.chars() {
            let mut bytes = [0; 4];
            let text = character.encode_utf8(&mut bytes);
            if character.is_control() {
                write!(f, "{}", Printable(text.as_bytes()))?;
            } else {
                f.write_str(text)?;
            }
        }
        Ok(())
    }
}
