//! What is remarked in a listing.

use aout_core::{Part, Symbol};
use texts::Text;

/// What a listing says to people beside the file. `read_listing` skips it: what it would not skip is written as a note or a remark that
/// begins with a slash. A part is text or data, and a place in it is the index of a word.
pub trait Remark {
    /// The notes at the head of the listing. Each becomes a line that begins with a slash.
    fn notes(&self) -> &[Vec<u8>];

    /// The notes that follow the table.
    fn findings(&self) -> &[Vec<u8>];

    /// Puts the labels before the word at a place of a part, a line each, or at the end of the part those of the end.
    fn put_labels(&self, labels: &mut Text, part: Part, place: usize);

    /// Puts what is remarked of the word at a place of a part, if anything is. A number at its front is left out, up to a slash.
    fn put_word(&self, remark: &mut Text, part: Part, place: usize);

    /// Puts what is remarked of a symbol, if anything is.
    fn put_symbol(&self, remark: &mut Text, symbol: &Symbol);
}

/// Nothing is remarked.
pub struct Nothing;

impl Remark for Nothing {
    fn notes(&self) -> &[Vec<u8>] {
        &[]
    }

    fn findings(&self) -> &[Vec<u8>] {
        &[]
    }

    fn put_labels(&self, labels: &mut Text, part: Part, place: usize) {}

    fn put_word(&self, remark: &mut Text, part: Part, place: usize) {}

    fn put_symbol(&self, remark: &mut Text, symbol: &Symbol) {}
}
