//! Why arguments are refused: the first reason, in their order. It decides nothing, since it is looked for only after the fault
//! `usage`: `command_words::parse` has the rules.
use aout_core::Name;
use tool_options::Forced;

/// A tool, which the first argument names.
#[derive(Clone, Copy, PartialEq, Eq)]
pub(crate) enum Tool {
    Ld,
    Nm,
    Session,
    Size,
    Strip,
}

impl Tool {
    const ALL: [Tool; 5] = [Tool::Ld, Tool::Nm, Tool::Session, Tool::Size, Tool::Strip];

    pub(crate) fn name(self) -> &'static str {
        match self {
            Tool::Ld => "ld",
            Tool::Nm => "nm",
            Tool::Session => "session",
            Tool::Size => "size",
            Tool::Strip => "strip",
        }
    }

    pub(crate) fn named(name: &str) -> Option<Tool> {
        Tool::ALL.iter().find(|tool| tool.name() == name).copied()
    }

    /// The letters of the options without a value, and of those with one.
    fn letters(self) -> (&'static [u8], &'static [u8]) {
        match self {
            Tool::Ld => (b"rsxXnid", b"ueo"),
            Tool::Session => (b"rsxXnid", b"ue"),
            Tool::Nm => (b"gnopru", b""),
            Tool::Size | Tool::Strip => (b"", b""),
        }
    }

    /// Whether the options are those of a link, some of which exclude each other.
    fn links(self) -> bool {
        matches!(self, Tool::Ld | Tool::Session)
    }
}

/// What is wrong with an argument.
#[derive(Clone, Copy)]
pub(crate) enum Cause {
    /// The first argument names no tool, or there is none.
    NoTool,
    /// An option of more than one letter; there are none.
    NoLongOption,
    /// The tool has no option of this letter. The number is its place after the hyphen of the argument, in bytes, from 0.
    NoOption(usize),
    /// The option of this letter has no value, neither in its own argument nor in the next one.
    NoValue(char),
    /// A second value for the option of this letter, which takes one.
    SecondValue(char),
    /// The option of the first letter was given, and excludes that of the second.
    Excluded(char, char),
    /// A 65th different name after `-u`.
    ManyNames,
    /// A file for a tool that takes none.
    NoFiles,
    /// The tool needs a file, and all arguments are read.
    FileMissing,
}

/// Why arguments are refused.
#[derive(Clone, Copy)]
pub(crate) struct Reason {
    /// The index of the argument, from 0; the number of arguments for what is missing after the last one.
    pub(crate) at: usize,
    /// What is wrong.
    pub(crate) cause: Cause,
}

/// The flags of a link that exclude each other.
static EXCLUDING: [(u8, u8); 4] = [(b'r', b's'), (b'r', b'n'), (b'r', b'i'), (b'n', b'i')];

/// What has been read of the arguments of a tool.
#[derive(Clone, Copy)]
struct Progress {
    tool: Tool,
    /// Which options were given, by their letters: flags, and those that take one value.
    given: [bool; 128],
    /// The names after `-u`.
    forced: Forced,
    /// The letter of an option whose value is the next argument.
    waiting: Option<u8>,
    /// Whether `--` was read: all other arguments are files.
    only_files: bool,
    has_file: bool,
}

impl Progress {
    fn has(&self, letter: u8) -> bool {
        self.given.get(usize::from(letter)) == Some(&true)
    }

    fn note(&mut self, letter: u8) {
        if let Some(given) = self.given.get_mut(usize::from(letter)) {
            *given = true;
        }
    }

    fn read_flag(&mut self, letter: u8) -> Result<(), Cause> {
        for (one, other) in EXCLUDING {
            let earlier = if letter == one { other } else { one };
            let is_pair = letter == one || letter == other;
            if self.tool.links() && is_pair && self.has(earlier) {
                return Err(Cause::Excluded(char::from(earlier), char::from(letter)));
            }
        }
        self.note(letter);
        Ok(())
    }

    fn read_value(&mut self, letter: u8, text: &[u8]) -> Result<(), Cause> {
        self.waiting = None;
        if letter == b'u' {
            let is_taken = self.forced.push(Name::from_bytes(text));
            return is_taken.then_some(()).ok_or(Cause::ManyNames);
        }
        if self.has(letter) {
            return Err(Cause::SecondValue(char::from(letter)));
        }
        self.note(letter);
        Ok(())
    }

    /// Reads letters of options, up to one that takes a value: what follows it, after a `=` that may be there, or else the next argument.
    fn read_letters(&mut self, letters: &[u8]) -> Result<(), Cause> {
        let (flags, values) = self.tool.letters();
        for (place, letter) in letters.iter().enumerate() {
            if flags.contains(letter) {
                self.read_flag(*letter)?;
                continue;
            }
            if !values.contains(letter) {
                return Err(Cause::NoOption(place));
            }
            return match letters.get(place.saturating_add(1)..).unwrap_or(b"") {
                [] => {
                    self.waiting = Some(*letter);
                    Ok(())
                }
                rest => self.read_value(*letter, rest.strip_prefix(b"=").unwrap_or(rest)),
            };
        }
        Ok(())
    }

    /// Reads an argument.
    fn read(&mut self, word: &[u8]) -> Result<(), Cause> {
        match (self.waiting, word) {
            (Some(letter), [b'-', ..]) => Err(Cause::NoValue(char::from(letter))),
            (Some(letter), _) => self.read_value(letter, word),
            (None, b"--") if !self.only_files => {
                self.only_files = true;
                Ok(())
            }
            (None, [b'-', b'-', ..]) if !self.only_files => Err(Cause::NoLongOption),
            (None, [b'-', letters @ ..]) if !self.only_files && !letters.is_empty() => {
                self.read_letters(letters)
            }
            _ if self.tool == Tool::Session => Err(Cause::NoFiles),
            _ => {
                self.has_file = true;
                Ok(())
            }
        }
    }

    /// What is missing after all arguments.
    fn missing(&self) -> Option<Cause> {
        let needs_file = matches!(self.tool, Tool::Ld | Tool::Strip);
        match self.waiting {
            Some(letter) => Some(Cause::NoValue(char::from(letter))),
            None => (needs_file && !self.has_file).then_some(Cause::FileMissing),
        }
    }
}

/// The first reason to refuse the arguments after the program's name, in their order; `None` if there is none. They are read
/// from left to right, each letter of an option by itself, and what is missing comes after the last one.
pub(crate) fn first_reason(words: &[String]) -> Option<Reason> {
    let Some(tool) = Tool::named(words.first().map_or("", |name| name.as_str())) else {
        return Some(Reason {
            at: usize::from(matches!(words, [help, _, ..] if help.as_str() == "help")),
            cause: Cause::NoTool,
        });
    };
    let mut progress = Progress {
        tool,
        given: [false; 128],
        forced: Forced::none(),
        waiting: None,
        only_files: false,
        has_file: false,
    };
    for (at, word) in words.iter().enumerate().skip(1) {
        if let Err(cause) = progress.read(word.as_bytes()) {
            return Some(Reason { at, cause });
        }
    }
    let cause = progress.missing()?;
    Some(Reason {
        at: words.len(),
        cause,
    })
}
