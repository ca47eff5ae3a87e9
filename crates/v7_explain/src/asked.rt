//! What a map is asked for: names, objects and addresses, and what the link does not have. Only tested: which these are.
ghost use Rattle.std.specs.Prelude.{◌≡◌, map, option_map, IfOk, string_bytes};
ghost use Rattle.v7_explain.specs.{Calls.words_of_link, Files.{is_named, octal_number}, internal.Asked.{asks_of_map, words_left}};

use aout_core::{Name, Symbol};
use link_maps::{LinkMap, Listed, Spot, spots_at};
use std::alloc::{AllocError, Global};

/// Whether the first of these words is `-y`.
fn asks_of_map(words: &[String]) -> bool
    ensures { result ≡ asks_of_map (map string_bytes words.now) }
{
    match words {
        [] => false,
        [first, ..] => first.as_str() == "-y",
    }
}

/// Takes the arguments of `-y`, and returns the words after these; none if an argument is missing.
pub(crate) fn take_asked<'a>(
    alloc: Global,
    asked: &mut Vec<String>,
    words: &'a [String],
) -> Result<Option<&'a [String]>, AllocError>
    ensures { IfOk result (λ rest. words_of_link (map string_bytes words.now)
        ≡ words_left (option_map (λ words. map string_bytes words.now) rest)) }
{
    let mut rest = words;
    while asks_of_map(rest) {
        let [_, argument, after @ ..] = rest else {
            return Ok(None);
        };
        asked.push(String::from_str(alloc, argument.as_str())?)?;
        rest = after;
    }
    Ok(Some(rest))
}

pub(crate) fn is_named(symbols: &[Symbol], name: &Name) -> bool
    ensures { result ≡ is_named symbols.now name.now }
{
    symbols.iter().any(|symbol| symbol.name == *name)
}

/// Whether a name is a forced one of a link, or one of a symbol of its objects.
fn is_name(forced: &[Name], all: &[Listed<'_>], name: &Name) -> bool {
    forced.contains(name)
        || all
            .iter()
            .any(|object| is_named(object.file.symbols(), name))
}

/// The number of octal digits, if there is one and no other byte. No address has more than 33 bits.
pub(crate) fn octal_number(digits: &[u8]) -> Option<u64>
    ensures { result ≡ octal_number digits.now }
{
    if digits.is_empty() {
        return None;
    }
    let mut sum = 0u64;
    for digit in digits {
        let digit = *digit;
        if digit < b'0' || digit > b'7' || sum >= 0o10000000000 {
            return None;
        }
        sum = 8 * sum + u64::from(digit - b'0');
    }
    Some(sum)
}

/// What arguments ask of a map.
#[derive(Drop)]
pub(crate) struct Asked {
    /// Names of the link, and of locals.
    pub(crate) names: Vec<Name>,
    /// The paths of objects.
    pub(crate) paths: Vec<String>,
    /// What the link has at addresses.
    pub(crate) spots: Vec<Spot>,
    /// The arguments that are none of these.
    pub(crate) absent: Vec<String>,
}

impl Asked {
    /// Adds what an argument asks of a map: a name, else the path of an object, else an address in octal digits.
    fn put(
        &mut self,
        alloc: Global,
        link: &LinkMap,
        forced: &[Name],
        all: &[Listed<'_>],
        argument: &str,
    ) -> Result<(), AllocError> {
        let name = Name::from_bytes(argument.as_bytes());
        if is_name(forced, all, &name) {
            self.names.push(name)?;
            return Ok(());
        }
        let copy = String::from_str(alloc, argument)?;
        if all.iter().any(|object| object.label == argument) {
            self.paths.push(copy)?;
            return Ok(());
        }
        if let Some(address) = octal_number(argument.as_bytes()) {
            let spots = spots_at(alloc, link, all, address)?;
            if !spots.is_empty() {
                return self.spots.extend_from_slice(&spots);
            }
        }
        self.absent.push(copy)?;
        Ok(())
    }

    /// What these arguments ask of a map, each in turn. What the link does not have is absent.
    ///
    /// An error: out of memory.
    pub(crate) fn of(
        alloc: Global,
        link: &LinkMap,
        forced: &[Name],
        all: &[Listed<'_>],
        arguments: &[String],
    ) -> Result<Asked, AllocError> {
        let mut asked = Asked {
            names: Vec::new(alloc),
            paths: Vec::new(alloc),
            spots: Vec::new(alloc),
            absent: Vec::new(alloc),
        };
        for argument in arguments {
            asked.put(alloc, link, forced, all, argument.as_str())?;
        }
        Ok(asked)
    }
}
