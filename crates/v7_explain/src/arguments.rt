//! What the arguments ask for.
ghost use Rattle.std.specs.Prelude.{◌≡◌, map, option_map, string_bytes};
ghost use Rattle.v7_explain.specs.{Calls.{after_map, asked_by, call_of, mode_in}, internal.Asked.result_in};

use crate::explaining::Mode;
use crate::listing::View;
use checks::Evidence;
use host::{Given, Reason};
use instructions::Decoder;

/// What the arguments ask for, but for a map.
#[derive(Clone, Copy)]
pub(crate) enum Call<'a> {
    /// To explain the files at these paths.
    Explain(Mode, &'a [String]),
    /// An inventory of the files at these paths and in the folders there.
    Walk(&'a [String]),
    /// To store the listing of a file: its path, and that of the file.
    Store(&'a str, &'a str),
    /// To ask a file for a name or an address, or to show that function: what is asked, whether it is shown, and the path.
    Ask(&'a str, bool, &'a str),
}

/// How the files are explained.
fn mode_in(given: &Given) -> Mode
    ensures { result ≡ mode_in given.now }
{
    if given.has(b'c') && given.has(b't') {
        Mode::Check(Evidence::Promise)
    } else if given.has(b'c') {
        Mode::Check(Evidence::Flow)
    } else if given.has(b'l') {
        Mode::Inventory
    } else if given.has(b'd') {
        Mode::Show(View::Instructions(Decoder::Unix))
    } else if given.has(b'p') {
        Mode::Show(View::Instructions(Decoder::Pdp11))
    } else if given.has(b's') {
        Mode::Show(View::Rows)
    } else {
        Mode::Listing(false)
    }
}

/// What options ask for of which none excludes another: with the values of `-y` and `-o`, and the paths.
fn asked_by<'a>(
    given: &Given,
    what: Option<&'a str>,
    to: Option<&'a str>,
    paths: &'a [String],
) -> Result<Call<'a>, Reason>
    ensures { result_in result ≡ asked_by given.now (option_map (λ v. v.now) what.entry)
        (option_map (λ v. v.now) to.entry) (map string_bytes paths.now) }
{
    match (what, to, paths) {
        (Some(what), _, [path]) => Ok(Call::Ask(what, given.has(b'd'), path.as_str())),
        (Some(_), _, _) => Err(Reason::NotOneFile(b'y')),
        (None, Some(to), [path]) => Ok(Call::Store(to, path.as_str())),
        (None, Some(_), _) => Err(Reason::NotOneFile(b'o')),
        (None, None, []) => Err(Reason::NoFile),
        (None, None, _) if given.has(b'R') => Ok(Call::Walk(paths)),
        (None, None, _) => Ok(Call::Explain(mode_in(given), paths)),
    }
}

/// What is given asks for this, unless `-m` is not the first argument, an option needs another one, or one excludes another.
pub(crate) fn call_of(given: &Given) -> Result<Call<'_>, Reason>
    ensures { result_in result ≡ call_of given.now }
{
    if given.has(b'm') {
        return Err(Reason::NotFirst(b'm'));
    }
    if given.has(b't') && !given.has(b'c') {
        return Err(Reason::Needs(b't', b'c'));
    }
    if given.has(b'R') && !given.has(b'l') {
        return Err(Reason::Needs(b'R', b'l'));
    }
    match given
        .excluded_in(b"cdlops")
        .or(given.excluded_in(b"clopsy"))
    {
        Some(reason) => Err(reason),
        None => asked_by(
            given,
            given.value_of(b'y'),
            given.value_of(b'o'),
            given.paths(),
        ),
    }
}

/// The arguments after `-m`, if that is the first one.
pub(crate) fn after_map(words: &[String]) -> Option<&[String]>
    ensures { option_map (λ rest. map string_bytes rest.now) result
        ≡ after_map (map string_bytes words.now) }
{
    match words {
        [first, rest @ ..] if first.as_str() == "-m" => Some(rest),
        _ => None,
    }
}
