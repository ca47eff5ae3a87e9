//! Pages of help.
use super::reasons::{Cause, Reason, Tool};
use host::Shown;

const ALL: &str = "usage: v7 COMMAND [ARGUMENT]...

  ld       links objects into a program, or into one object
  nm       lists the symbols of files
  session  links step by step: objects are added and taken out again
  size     prints the sizes of text, data and bss
  strip    removes symbols and relocation from files

  v7 COMMAND --help shows the options of a command.
  v7 --version shows the version.

examples:
  v7 ld -o program main.o twice.o count.o
  v7 nm program

The manual is v7(1): man v7
";

const LD: &str = "usage: v7 ld [-rsxXnid] [-u NAME]... [-e NAME] [-o OUTPUT] FILE...

Links the objects FILE in order, and exits with 1 if it reports anything.

  -o OUTPUT  writes the linked file to OUTPUT, not to a.out
  -r         makes an object, which can be linked again
  -s         keeps no symbols
  -x         keeps no local symbols
  -X         keeps no local symbols that begin with L
  -n         begins data at a multiple of 020000, so that text can be shared
  -i         gives text and data address spaces of their own
  -d         with -r, lays out commons too
  -u NAME    makes NAME undefined from the start
  -e NAME    makes NAME the entry point

examples:
  v7 ld -o program main.o twice.o count.o
  v7 ld -r -o both.o main.o twice.o

The manual is v7-ld(1): man v7-ld
";

const NM: &str = "usage: v7 nm [-gnopru] [FILE]...

Lists the symbols of each FILE, or of a.out.

  -g       external symbols alone
  -n       by value, not by name
  -o       the file's name before each line
  -p       in the order of the symbol table
  -r       in reverse order
  -u       undefined symbols alone

examples:
  v7 nm main.o
  v7 nm -gn program

The manual is v7-nm(1): man v7-nm
";

const SESSION: &str = "usage: v7 session [-rsxXnid] [-u NAME]... [-e NAME]

Reads commands from standard input, one on a line, and answers each.

  add PATH    adds an object
  withdraw    takes out the object that was added last
  externals   lists the external names
  undefined   lists the undefined names
  link PATH   links the objects into a file

  The options are those of v7 ld, and apply to each link.

examples:
  v7 session
  v7 session -s <commands.txt

The manual is v7-session(1): man v7-session
";

const SIZE: &str = "usage: v7 size [FILE]...

Prints the sizes of text, data and bss of each FILE, or of a.out, in bytes,
then their sum in decimal, and in octal. There are no options.

examples:
  v7 size program
  v7 size main.o twice.o

The manual is v7-size(1): man v7-size
";

const STRIP: &str = "usage: v7 strip FILE...

Removes the symbols and the relocation of each FILE, in place. There are no
options.

examples:
  v7 strip program
  v7 strip program ab.out

The manual is v7-strip(1): man v7-strip
";

/// The page of a tool, or of the program.
fn page(tool: Option<Tool>) -> &'static str {
    match tool {
        None => ALL,
        Some(Tool::Ld) => LD,
        Some(Tool::Nm) => NM,
        Some(Tool::Session) => SESSION,
        Some(Tool::Size) => SIZE,
        Some(Tool::Strip) => STRIP,
    }
}

/// The page that arguments ask for: that of the first one's tool, or of the one after `help`.
pub(crate) fn page_asked(words: &[String]) -> &'static str {
    match words {
        [help, named, ..] if help.as_str() == "help" => page(Tool::named(named.as_str())),
        [first, ..] => page(Tool::named(first.as_str())),
        [] => ALL,
    }
}

/// What arguments that are refused ask to be shown: no arguments, `help`, `--help` or `--version` in place of a tool's name, a tool
/// after `help`, or `--help` after one.
pub(crate) fn asked_shown(words: &[String], reason: Option<Reason>) -> Option<Shown> {
    if words.is_empty() {
        return Some(Shown::Help);
    }
    let reason = reason?;
    match (reason.cause, words.get(reason.at)?.as_str()) {
        (Cause::NoTool, "help" | "--help") => Some(Shown::Help),
        (Cause::NoTool, "--version") => Some(Shown::Version),
        (Cause::NoTool, named) if Tool::named(named).is_some() => Some(Shown::Help),
        (Cause::NoLongOption, "--help") => Some(Shown::Help),
        _ => None,
    }
}
