//! The options that ld and session share.
ghost use Rattle.std.specs.Prelude.{◌≡◌, false, IfOk, map, option_map};
ghost use Rattle.clap.specs.{Walk.{first_of, rows_of, rule_of}, Matches.found_of, Simple.app_of};
ghost use Rattle.clap.specs.declared.builder.action.ArgAction.TheVariants.{Count};
ghost use Rattle.command_words.specs.{Tools.{letter_rule, link_rules, with_rules}, internal.FlagRules.flag_rule};
ghost use Rattle.command_words.specs.LinkWords.{flags_asked, forced_asked, is_given, name_in, options_asked};

use crate::fault::WordsFault;
use aout_core::Name;
use clap::{Arg, ArgAction, ArgMatches, Command};
use std::alloc::{AllocError, Global};
use tool_options::{Flags, Forced, Options};

/// The option of a file that can be linked again.
const RELOCATABLE: &str = "relocatable";
/// The option of a file without symbols.
const STRIP: &str = "strip";
/// The option of a file without locals.
const EXTERNALS: &str = "externals";
/// The option of a file without those locals whose names begin with `L`.
const NOT_L: &str = "not-l";
/// The option of text that can be shared.
const PURE: &str = "pure";
/// The option of data in a space of its own.
const SPLIT: &str = "split";
/// The option that lays out commons.
const COMMONS: &str = "commons";
/// The option of a forced name.
const FORCED: &str = "forced";
/// The option that names the entry point.
const ENTRY: &str = "entry";

/// The flags of a link, each with its letter.
const LINK_FLAGS: [(&str, char); 7] = [
    (RELOCATABLE, 'r'),
    (STRIP, 's'),
    (EXTERNALS, 'x'),
    (NOT_L, 'X'),
    (PURE, 'n'),
    (SPLIT, 'i'),
    (COMMONS, 'd'),
];

/// A flag, which may be repeated.
fn flag<'a>(alloc: Global, id: &'a str, short: char) -> Arg<'a>
    ensures rule { rule_of result ≡ letter_rule id.entry.now short Count }
    ensures local { result.global ≡ false }
{
    Arg::new(alloc, id).short(short).action(ArgAction::Count)
}

/// An option with a value.
pub(crate) fn valued<'a>(alloc: Global, id: &'a str, short: char, action: ArgAction) -> Arg<'a>
    ensures rule { rule_of result ≡ letter_rule id.entry.now short action }
    ensures local { result.global ≡ false }
{
    Arg::new(alloc, id).short(short).action(action)
}

/// A command with further flags, each an id and its letter.
pub(crate) fn with_flags<'a>(
    alloc: Global,
    mut command: Command<'a>,
    flags: &[(&'a str, char)],
) -> Result<Command<'a>, AllocError>
    ensures { IfOk result (λ r.
        app_of r ≡ with_rules (app_of command.entry) (map flag_rule flags.now)) }
{
    for (id, short) in flags {
        command = command.arg(flag(alloc, id, *short))?;
    }
    Ok(command)
}

pub(crate) fn with_link_options<'a>(
    alloc: Global,
    command: Command<'a>,
) -> Result<Command<'a>, AllocError>
    ensures { IfOk result (λ r. app_of r ≡ with_rules (app_of command.entry) link_rules) }
{
    with_flags(alloc, command, &LINK_FLAGS)?
        .arg(valued(alloc, FORCED, 'u', ArgAction::Append))?
        .arg(valued(alloc, ENTRY, 'e', ArgAction::Set))
}

/// Whether a flag was given.
pub(crate) fn is_set(given: &ArgMatches<'_>, id: &str) -> bool
    ensures { result ≡ is_given (rows_of (found_of given.now)) id.now }
{
    given.get_count(id) > 0
}

/// The flags of a link that were given.
fn flags_given(given: &ArgMatches<'_>) -> Flags
    ensures { result ≡ flags_asked (rows_of (found_of given.now)) }
{
    Flags {
        relocatable: is_set(given, RELOCATABLE),
        strip: is_set(given, STRIP),
        externals: is_set(given, EXTERNALS),
        not_l: is_set(given, NOT_L),
        pure: is_set(given, PURE),
        split: is_set(given, SPLIT),
        commons: is_set(given, COMMONS),
    }
}

/// The name of the entry point.
fn entry(given: &ArgMatches<'_>) -> Option<Name>
    ensures { result ≡ option_map name_in (first_of ENTRY.now (rows_of (found_of given.now))) }
{
    match given.get_str(ENTRY) {
        Some(name) => Some(Name::from_bytes(name.as_bytes())),
        None => None,
    }
}

/// The options of a link. `Usage`: two that exclude each other.
pub(crate) fn link_options(given: &ArgMatches<'_>) -> Result<Options, WordsFault>
    ensures { result ≡ options_asked (rows_of (found_of given.now)) }
{
    flags_given(given)
        .options(entry(given))
        .ok_or(WordsFault::Usage)
}

/// The forced names, each once. `Usage`: more than 64 different ones.
pub(crate) fn forced_names(given: &ArgMatches<'_>) -> Result<Forced, WordsFault>
    ensures { result ≡ forced_asked (rows_of (found_of given.now)) }
{
    let mut forced = Forced::none();
    let Some(names) = given.get_strs(FORCED) else {
        return Ok(forced);
    };
    for name in names {
        if !forced.push(Name::from_bytes(name.as_bytes())) {
            return Err(WordsFault::Usage);
        }
    }
    Ok(forced)
}
