//! How far it is sure that a line is an instruction.
ghost use Rattle.std.specs.Prelude.{◌≡◌, ◌≤◌, ◌<◌, ◌^◌, length, IfSome};
ghost use Rattle.instructions.specs.{UnixLines.unix_length, declared.unix.Decoder.TheVariants.Unix};
ghost use Rattle.disassemblies.specs.Lines.{unix_line_in};
ghost use Rattle.checks.specs.Trust as spec;

use crate::evidence::Reached;
use crate::leads::is_promised;
use crate::reached::is_marked;

/// How far it is sure that a line is an instruction.
#[derive(Clone, Copy)]
pub(crate) struct Trust {
    /// Names show that its place is reached, or it is sure.
    pub(crate) is_reached: bool,
    pub(crate) is_sure: bool,
}

/// Whether the line at a reached place has the word so many words after it.
fn has_word_at(reached: &Reached<'_>, start: usize, back: usize) -> bool
    ensures { result ≡ spec.has_word_at reached.now.evidence reached.now.sweep.now start back }
{
    start < reached.sweep.file().text_words().len()
        && is_marked(reached.marks, start)
        && back < reached.sweep.line_at(start).length()
}

/// Whether the line at a reached place so many words before a place has its word.
fn enters(reached: &Reached<'_>, place: usize, back: usize) -> bool
    ensures { result ≡ spec.enters reached.now.evidence reached.now.sweep.now place back }
{
    place >= back && has_word_at(reached, place - back, back)
}

/// The nearest reached place before this one whose line has its word.
pub(crate) fn entered(reached: &Reached<'_>, place: usize) -> Option<usize>
    ensures value { result ≡ spec.entered reached.now.evidence reached.now.sweep.now place }
    ensures before { IfSome result (λ start. start ≤ place) }
{
    if enters(reached, place, 1) {
        Some(place - 1)
    } else if enters(reached, place, 2) {
        Some(place - 2)
    } else if enters(reached, place, 3) {
        Some(place - 3)
    } else if enters(reached, place, 4) {
        Some(place - 4)
    } else {
        None
    }
}

/// Whether a line that is reached begins so many words after the one of so many words at a place, with a word of it.
fn is_entered(reached: &Reached<'_>, place: usize, count: usize, ahead: usize) -> bool
    requires inside { place < 2 ^ 15 }
    requires short { ahead ≤ 4 }
    requires counted { count ≡ unix_length (unix_line_in Unix reached.now.sweep.now place) }
    ensures { result ≡ spec.is_entered reached.now.evidence reached.now.sweep.now place ahead }
{
    ahead < count && is_marked(reached.marks, place + ahead)
}

/// Whether the line at a place overlaps another one that is reached.
fn overlaps(reached: &Reached<'_>, place: usize) -> bool
    requires { place < length reached.now.sweep.now.text_words }
    ensures { result ≡ spec.overlaps reached.now.evidence reached.now.sweep.now place }
{
    let is_inside = place < reached.sweep.file().text_words().len();
    prove!(is_inside);
    let count = reached.sweep.line_at(place).length();
    entered(reached, place).is_some()
        || is_entered(reached, place, count, 1)
        || is_entered(reached, place, count, 2)
        || is_entered(reached, place, count, 3)
        || is_entered(reached, place, count, 4)
}

/// Whether it is sure that an instruction is at a place.
pub(crate) fn is_sure(reached: &Reached<'_>, place: usize) -> bool
    requires { place < length reached.now.sweep.now.text_words }
    ensures { result ≡ spec.is_sure reached.now.evidence reached.now.sweep.now place }
{
    is_marked(reached.marks, place) && (is_promised(reached.evidence) || !overlaps(reached, place))
}
