//! The lines of a script.
ghost use Rattle.std.specs.Prelude.{◌≡◌, IfErr, IfOk, length, drop, true, false, MatchOption};
ghost use Rattle.command_words.specs.{Scripts.{asked, has_path}, ScriptAnswers.{asked_by, NamesPath}};

use std::alloc::{AllocError, Global};

/// The most bytes of a line, its newline not counted.
pub(crate) const LINE_LIMIT: usize = 4096;

/// What a line of a script asks for.
#[derive(Debug, Drop)]
pub enum Line {
    /// `add PATH`: the object at this path is added.
    Add(String),
    /// `withdraw`: the last object is withdrawn.
    Withdraw,
    /// `externals`: the externals are listed.
    Externals,
    /// `undefined`: the undefined names are listed.
    Undefined,
    /// `link PATH`: the session is linked into the file at this path.
    Link(String),
    /// Anything else, also a line that is not UTF-8.
    Bad,
}

/// The path after a word that a line begins with, if there is one.
fn path_after<'a>(word: &str, line: &'a str) -> Option<&'a str>
    ensures { MatchOption result (has_path word.now line.now ≡ false) (λ path.
        (has_path word.now line.now ≡ true) × (path.now ≡ drop (length word.now) line.now)) }
{
    let path = line.strip_prefix(word)?;
    if path.is_empty() { None } else { Some(path) }
}

/// What a line that is UTF-8 asks for. Memory is taken for a path alone.
fn asked_in(alloc: Global, line: &str) -> Result<Line, AllocError>
    ensures value { IfOk result (λ it. asked_by it ≡ asked line.now) }
    ensures memory { IfErr result (λ _. NamesPath (asked line.now)) }
{
    if let Some(path) = path_after("add ", line) {
        return Ok(Line::Add(String::from_str(alloc, path)?));
    }
    match line {
        "withdraw" => return Ok(Line::Withdraw),
        "externals" => return Ok(Line::Externals),
        "undefined" => return Ok(Line::Undefined),
        _ => {}
    }
    match path_after("link ", line) {
        Some(path) => Ok(Line::Link(String::from_str(alloc, path)?)),
        None => Ok(Line::Bad),
    }
}

impl Line {
    /// What the bytes of a line, without its newline, ask for. Memory is taken for a path alone.
    pub(crate) fn from_bytes(alloc: Global, bytes: &[u8]) -> Result<Line, AllocError>
        ensures value { IfOk result (λ line. asked_by line ≡ asked bytes.now) }
        ensures memory { IfErr result (λ _. NamesPath (asked bytes.now)) }
    {
        match str::from_utf8(bytes) {
            Ok(line) => asked_in(alloc, line),
            Err(_) => Ok(Line::Bad),
        }
    }
}
