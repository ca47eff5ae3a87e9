//! What is nearest to a line that is not a command.
use std::rt::Runtime;
use std::{io, str};

/// A command, and whether it takes a path. The last four are the prompt's own.
const COMMANDS: [(&str, bool); 9] = [
    ("add", true),
    ("withdraw", false),
    ("externals", false),
    ("undefined", false),
    ("link", true),
    ("list", false),
    ("help", false),
    ("quit", false),
    ("exit", false),
];

/// The first word of a line, and what follows it.
fn parted(line: &[u8]) -> (&[u8], &[u8]) {
    let blank = line.iter().position(|byte| byte.is_ascii_whitespace());
    line.split_at_checked(blank.unwrap_or(line.len()))
        .unwrap_or((line, b""))
}

fn is_command(line: &[u8], name: &str, takes_path: bool) -> bool {
    match line.strip_prefix(name.as_bytes()) {
        Some(rest) if takes_path => rest.len() > 1 && rest.starts_with(b" "),
        Some(rest) => rest.is_empty(),
        None => false,
    }
}

/// The command that is meant by a word that is not one: it has the same first two letters.
fn nearest(word: &[u8]) -> Option<&'static str> {
    if word == b"undo".as_slice() {
        return Some("withdraw");
    }
    let first = word.get(..2)?;
    let near = COMMANDS.iter().find(|(name, _)| match name.as_bytes().get(..2) {
        Some(other) => first.eq_ignore_ascii_case(other),
        None => false,
    });
    near.map(|(name, _)| *name)
}

/// Writes what is wrong with a line that begins with the name of a command, in any letters; nothing if it is this command.
fn put_form<H: Runtime>(rt: &H, line: &[u8], name: &str, takes_path: bool) -> io::Result<()> {
    if is_command(line, name, takes_path) {
        return Ok(());
    }
    let (word, rest) = parted(line.trim_ascii());
    let rest = str::from_utf8(rest).unwrap_or("");
    if takes_path && rest.is_empty() {
        return eprintln!(rt; "{name} needs a path: {name} PATH");
    }
    if word != name.as_bytes() {
        return eprintln!(rt; "Commands are in small letters: {name}{rest}");
    }
    if !line.starts_with(word) {
        return eprintln!(rt; "A command begins its line: {name}{rest}");
    }
    if takes_path {
        return eprintln!(rt; "{name} has one blank after it: {name} PATH");
    }
    eprintln!(rt; "{name} has nothing after it")
}

/// Writes a hint for a line that is not a command, and nothing for one that is.
pub(crate) fn put_hint<H: Runtime>(rt: &H, line: &[u8]) -> io::Result<()> {
    let (word, _) = parted(line.trim_ascii());
    for (name, takes_path) in COMMANDS {
        if word.eq_ignore_ascii_case(name.as_bytes()) {
            return put_form(rt, line, name, takes_path);
        }
    }
    if line.contains(&0x1b) {
        return rt.eprint("For arrow keys, start the session by rlwrap v7 session\n");
    }
    match nearest(word) {
        Some(name) => eprintln!(rt; "Do you mean {name}?"),
        None => rt.eprint("help shows the commands\n"),
    }
}
