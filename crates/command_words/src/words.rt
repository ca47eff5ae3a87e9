//! The arguments of a command.
ghost use Rattle.std.specs.Prelude.{◌≡◌, ◌<◌, false, [], IfErr, IfOk, bytes_eq, codes, filter, length, map, string_bytes, unwrap_or, vec_len};
ghost use Rattle.clap.specs.{Matches.found_of, Simple.app_of, Walk.{first_of, rows_of, rule_of}};
ghost use Rattle.aout_core.specs.Refusals.{refused};
ghost use Rattle.command_words.specs.declared.fault.WordsFault.TheVariants.{Memory};
ghost use Rattle.command_words.specs.Calls.{Asks, AsksForNone, IsAsked, IsWhole, dashes_in, files_of, name_of, or_program, program};
ghost use Rattle.command_words.specs.{internal.ToolApps.{tool_app, tools_added}, internal.ToolCalls.HasNoCall, LinkWords.values_of};
ghost use Rattle.command_words.specs.Tools.{bare, files_rule, ld_app, nm_app, v7_alone, v7_app};

use crate::fault::WordsFault;
use crate::link_words::{
    forced_names, is_set, link_options, valued, with_flags, with_link_options,
};
use clap::{Arg, ArgAction, ArgMatches, Command};
use std::alloc::{AllocError, Global};
use tool_options::{Forced, NmOptions, Options};

/// What the words ask for. (ld(1), nm(1), size(1), strip(1); the session: own choice)
#[derive(Debug, Drop)]
pub enum Call {
    /// A link of `files`, in order, into the file `out`.
    Ld {
        /// How the objects are linked.
        options: Options,
        /// The names that are mentioned before all objects.
        forced: Forced,
        /// The path of the output.
        out: String,
        /// The paths of the objects, at least one.
        files: Vec<String>,
    },
    /// The list of the symbols of `files`.
    Nm {
        /// Which symbols, and in which order.
        options: NmOptions,
        /// The paths of the files, at least one.
        files: Vec<String>,
    },
    /// The sizes of `files`.
    Size {
        /// The paths of the files, at least one.
        files: Vec<String>,
    },
    /// `files` without symbols and relocation, each in its own place.
    Strip {
        /// The paths of the files, at least one.
        files: Vec<String>,
    },
    /// A session that is driven by a script.
    Session {
        /// How the objects are linked.
        options: Options,
        /// The names that are mentioned before all objects.
        forced: Forced,
    },
}

/// The option that names the output.
const OUT: &str = "out";
/// The option of externals alone.
const EXTERNAL: &str = "external";
/// The option of the order by value.
const BY_VALUE: &str = "by-value";
/// The option that puts the file before each line.
const EACH_LINE: &str = "each-line";
/// The option of the order of the table.
const TABLE_ORDER: &str = "table-order";
/// The option of the other way round.
const REVERSE: &str = "reverse";
/// The option of undefined names alone.
const UNDEFINED: &str = "undefined";
/// The files.
const FILE: &str = "file";
/// The file that ld writes, and nm and size look into, if none is named.
const PROGRAM: &str = "a.out";

/// The flags of nm, each with its letter.
const NM_FLAGS: [(&str, char); 6] = [
    (EXTERNAL, 'g'),
    (BY_VALUE, 'n'),
    (EACH_LINE, 'o'),
    (TABLE_ORDER, 'p'),
    (REVERSE, 'r'),
    (UNDEFINED, 'u'),
];

/// The names of the tools. `size` and `strip` have no options: they take files alone.
const TOOLS: [&str; 5] = ["ld", "nm", "size", "strip", "session"];

/// A command without help and version.
fn tool<'a>(alloc: Global, name: &'a str) -> Command<'a>
    ensures { app_of result ≡ bare name.entry.now }
{
    Command::new(alloc, name)
        .disable_help_flag(true)
        .disable_version_flag(true)
        .disable_help_subcommand(true)
}

/// The files of a command, any number of them.
fn files<'a>(alloc: Global) -> Arg<'a>
    ensures rule { rule_of result ≡ files_rule }
    ensures local { result.global ≡ false }
{
    Arg::new(alloc, FILE)
        .action(ArgAction::Append)
        .num_args(0..)
}

fn ld_tool<'a>(alloc: Global) -> Result<Command<'a>, AllocError>
    ensures { IfOk result (λ r. app_of r ≡ ld_app) }
{
    with_link_options(alloc, tool(alloc, "ld"))?
        .arg(valued(alloc, OUT, 'o', ArgAction::Set))?
        .arg(files(alloc))
}

fn nm_tool<'a>(alloc: Global) -> Result<Command<'a>, AllocError>
    ensures { IfOk result (λ r. app_of r ≡ nm_app) }
{
    with_flags(alloc, tool(alloc, "nm"), &NM_FLAGS)?.arg(files(alloc))
}

/// The program, whose words begin with the name of a tool.
fn program<'a>(alloc: Global) -> Command<'a>
    ensures { app_of result ≡ v7_alone }
{
    tool(alloc, "v7")
        .no_binary_name(true)
        .subcommand_required(true)
}

fn tool_named<'a>(alloc: Global, name: &'a str) -> Result<Command<'a>, AllocError>
    ensures { IfOk result (λ r. app_of r ≡ tool_app name.entry.now) }
{
    match name {
        "ld" => ld_tool(alloc),
        "nm" => nm_tool(alloc),
        "session" => with_link_options(alloc, tool(alloc, "session")),
        _ => tool(alloc, name).arg(files(alloc)),
    }
}

fn with_tools<'a>(
    alloc: Global,
    mut command: Command<'a>,
    names: &[&'a str],
) -> Result<Command<'a>, AllocError>
    ensures { IfOk result (λ r.
        app_of r ≡ tools_added (app_of command.entry) (map (λ name. name.now) names.now)) }
{
    for name in names {
        command = command.subcommand(tool_named(alloc, name)?)?;
    }
    Ok(command)
}

fn tools<'a>(alloc: Global) -> Result<Command<'a>, AllocError>
    ensures { IfOk result (λ r. app_of r ≡ v7_app) }
{
    with_tools(alloc, program(alloc), &TOOLS)
}

/// The files of a command, owned.
fn owned_files(alloc: Global, matches: &ArgMatches<'_>) -> Result<Vec<String>, WordsFault>
    ensures value { IfOk result (λ owned.
        map string_bytes owned.items ≡ values_of (rows_of (found_of matches.now)) FILE.now) }
    ensures faults { IfErr result (λ fault. fault ≡ Memory refused) }
{
    let mut owned = Vec::new(alloc);
    let Some(given) = matches.get_strs(FILE) else {
        return Ok(owned);
    };
    for file in given {
        owned.push(String::from_str(alloc, file)?)?;
    }
    Ok(owned)
}

/// The files, or the program if none is named.
fn files_or_program(alloc: Global, mut files: Vec<String>) -> Result<Vec<String>, WordsFault>
    ensures whole { IfOk result (λ files. 0 < vec_len files) }
    ensures value { IfOk result (λ given.
        map string_bytes given.items ≡ or_program (map string_bytes files.items)) }
    ensures faults { IfErr result (λ fault. fault ≡ Memory refused) }
{
    if !files.is_empty() {
        return Ok(files);
    }
    files.push(String::from_str(alloc, PROGRAM)?)?;
    Ok(files)
}

/// The path of the output.
fn output(alloc: Global, given: &ArgMatches<'_>) -> Result<String, WordsFault>
    ensures value { IfOk result (λ out.
        string_bytes out ≡ unwrap_or (first_of OUT.now (rows_of (found_of given.now))) program) }
    ensures faults { IfErr result (λ fault. fault ≡ Memory refused) }
{
    let path = given.get_str(OUT).unwrap_or(PROGRAM);
    Ok(String::from_str(alloc, path)?)
}

fn ld_call(alloc: Global, given: &ArgMatches<'_>, files: Vec<String>) -> Result<Call, WordsFault>
    ensures whole { IfOk result IsWhole }
    ensures named { IfOk result (λ call. name_of call ≡ codes "ld") }
    ensures asked { IfOk result
        (Asks (rows_of (found_of given.now)) (map string_bytes files.items)) }
    ensures none { IfErr result
        (HasNoCall (codes "ld") (rows_of (found_of given.now)) (map string_bytes files.items)) }
{
    if files.is_empty() {
        return Err(WordsFault::Usage);
    }
    Ok(Call::Ld {
        options: link_options(given)?,
        forced: forced_names(given)?,
        out: output(alloc, given)?,
        files,
    })
}

fn nm_call(alloc: Global, given: &ArgMatches<'_>, files: Vec<String>) -> Result<Call, WordsFault>
    ensures whole { IfOk result IsWhole }
    ensures named { IfOk result (λ call. name_of call ≡ codes "nm") }
    ensures asked { IfOk result
        (Asks (rows_of (found_of given.now)) (map string_bytes files.items)) }
    ensures none { IfErr result
        (HasNoCall (codes "nm") (rows_of (found_of given.now)) (map string_bytes files.items)) }
{
    Ok(Call::Nm {
        options: NmOptions {
            external: is_set(given, EXTERNAL),
            by_value: is_set(given, BY_VALUE),
            each_line: is_set(given, EACH_LINE),
            table_order: is_set(given, TABLE_ORDER),
            reverse: is_set(given, REVERSE),
            undefined: is_set(given, UNDEFINED),
        },
        files: files_or_program(alloc, files)?,
    })
}

fn session_call(given: &ArgMatches<'_>) -> Result<Call, WordsFault>
    ensures whole { IfOk result IsWhole }
    ensures named { IfOk result (λ call. name_of call ≡ codes "session") }
    ensures asked { IfOk result (Asks (rows_of (found_of given.now)) []) }
    ensures none { IfErr result (HasNoCall (codes "session") (rows_of (found_of given.now)) []) }
{
    Ok(Call::Session {
        options: link_options(given)?,
        forced: forced_names(given)?,
    })
}

/// What a command's name, options and files ask for.
fn call_of(
    alloc: Global,
    name: &str,
    given: &ArgMatches<'_>,
    files: Vec<String>,
) -> Result<Call, WordsFault>
    ensures whole { IfOk result IsWhole }
    ensures named { IfOk result (λ call. name_of call ≡ name.now) }
    ensures asked { IfOk result
        (Asks (rows_of (found_of given.now)) (map string_bytes files.items)) }
    ensures none { IfErr result
        (HasNoCall name.now (rows_of (found_of given.now)) (map string_bytes files.items)) }
{
    match name {
        "ld" => ld_call(alloc, given, files),
        "nm" => nm_call(alloc, given, files),
        "session" if files.is_empty() => session_call(given),
        "size" => Ok(Call::Size {
            files: files_or_program(alloc, files)?,
        }),
        "strip" if !files.is_empty() => Ok(Call::Strip { files }),
        _ => Err(WordsFault::Usage),
    }
}

/// How many of the words are a dash alone. Each has to be a file, since none may be the value of an option.
fn dashes(words: &[String]) -> usize
    ensures { result
        ≡ length (filter (λ word. bytes_eq (string_bytes word) (codes "-")) words.now) }
{
    words.iter().filter(|word| word.as_str() == "-").count()
}

/// What the words after the program's name ask for:
///
/// - `ld [-rsxXnid] [-u NAME]... [-e NAME] [-o FILE] FILE...`, where the output is `a.out` unless `-o` names it. `-s`
///   wins over `-x`, and that over `-X`. A name is cut at 8 bytes.
/// - `nm [-gnopru] [FILE...]` and `size [FILE...]`, which take `a.out` if no file is named.
/// - `strip FILE...`.
/// - `session [-rsxXnid] [-u NAME]... [-e NAME]`.
///
/// A flag may be repeated, but not `-e` and `-o`. The value of an option is in the same argument, or in the next one if
/// that does not begin with `-`. Options may stand after files, and `--` ends them. A dash alone is a file.
///
/// (ld(1), nm(1), size(1), strip(1); the session and the limit are an own choice)
///
/// Errors: `Usage`, 1, for all other words, `-r` with `-s`, `-n` or `-i`, `-n` with `-i`, and more than 64 different
/// names after `-u`; `Memory`, 9, if memory runs out for what the words ask for.
pub fn parse(alloc: Global, words: Vec<String>) -> Result<Call, WordsFault>
    ensures whole { IfOk result IsWhole }
    ensures asked { IfOk result (IsAsked (map string_bytes words.items)) }
    ensures dashes { IfOk result (λ call.
        dashes_in (map string_bytes words.items) ≡ dashes_in (files_of call)) }
    ensures none { IfErr result (AsksForNone (map string_bytes words.items)) }
{
    let matches = tools(alloc)?.try_get_matches_from(words.as_slice())?;
    let Some((name, given)) = matches.subcommand() else {
        return Err(WordsFault::Usage);
    };
    let files = owned_files(alloc, given)?;
    if dashes(&words) != dashes(&files) {
        return Err(WordsFault::Usage);
    }
    call_of(alloc, name, given, files)
}
