//! Lines of text of Unix: the arguments of a system call follow it.
ghost use Rattle.std.specs.Prelude.{◌≡◌, ◌≤◌, ◌<◌, ◌+◌, length, IfSome};
ghost use Rattle.instructions.specs.UnixLines.{call_of, call_by, unix_line_at, unix_length};
ghost use Rattle.instructions.specs.internal.CallSearch.{call_in};

use crate::call_table::{CALLS, CallRow};
use crate::line::{Line, decode};
use crate::reference::Reference;
use texts::Text;

/// What a decoder takes for a line.
#[derive(Clone, Copy, Debug, PartialEq, Eq)]
pub enum Decoder {
    /// Instructions of the PDP-11 alone: what follows `sys` is decoded like other words.
    Pdp11,
    /// Those of the Seventh Edition: the arguments of a system call are on the line of its `sys`.
    Unix,
}

/// A line of text of Unix. (section 2 of the Unix Programmer's Manual, Seventh Edition)
#[derive(Clone, Copy, Debug, PartialEq, Eq)]
pub enum UnixLine {
    /// A line as of the PDP-11 alone.
    Machine(Line),
    /// A system call: `sys`, and as many words after it as the call has arguments.
    Call(CallRow),
}

/// The first of these calls that a word makes.
fn call_in(calls: &[CallRow], word: u16) -> Option<CallRow>
    ensures { result ≡ call_in calls.now word }
{
    for call in calls {
        if 0o104400 + u32::from(call.number) == u32::from(word) {
            return Some(*call);
        }
    }
    None
}

/// The system call that a first word makes, `None` if it makes none. (section 2 of the Unix Programmer's Manual, Seventh
/// Edition)
pub fn call_of(word: u16) -> Option<CallRow>
    ensures value { result ≡ call_of word }
    ensures small { IfSome result (λ c. c.words ≤ 4) }
{
    if word / 0o400 != 0o104400 / 0o400 {
        return None;
    }
    call_in(&CALLS, word)
}

/// The call that a first word makes for a decoder.
fn call_by(decoder: Decoder, word: u16) -> Option<CallRow>
    ensures value { result ≡ call_by decoder word }
    ensures small { IfSome result (λ c. c.words ≤ 4) }
{
    match decoder {
        Decoder::Pdp11 => None,
        Decoder::Unix => call_of(word),
    }
}

/// The line that begins at a place of these words. A call whose arguments are not all there is cut: its first word is plain.
/// (section 2 of the Unix Programmer's Manual, Seventh Edition; calls that are cut: own choice)
pub fn decode_by(decoder: Decoder, words: &[u16], place: usize) -> UnixLine
    requires { place < length words.now }
    ensures line { result ≡ unix_line_at decoder words.now place }
    ensures fits { place + unix_length result ≤ length words.now }
    ensures some { 1 ≤ unix_length result }
    ensures short { unix_length result ≤ 5 }
{
    let first = words[place];
    match call_by(decoder, first) {
        Some(call) if usize::from(call.words) <= words[place + 1..].len() => UnixLine::Call(call),
        Some(_) => UnixLine::Machine(Line::Plain(first)),
        None => UnixLine::Machine(decode(words, place)),
    }
}

impl UnixLine {
    /// How many words it has, 1 to 5. (section 2 of the Unix Programmer's Manual, Seventh Edition)
    pub fn length(&self) -> usize
        ensures { result ≡ unix_length self.now }
    {
        match self {
            UnixLine::Machine(line) => line.length(),
            UnixLine::Call(call) => 1 + usize::from(call.words),
        }
    }
}

impl CallRow {
    /// Appends `sys` and the name of the call, without arguments. (as(1))
    pub fn put_text(&self, text: &mut Text) {
        text.put("sys ");
        text.put(self.call.name());
    }
}

/// Appends an argument of a system call with what precedes it: six digits, or the reference in their place. (as(1); six
/// digits: own choice)
pub fn put_argument(text: &mut Text, argument: u16, reference: Option<Reference>) {
    text.put("; ");
    match reference {
        Some(reference) => reference.put_text(text),
        None => text.put_six_digits(u32::from(argument)),
    }
}
