//! The link of the objects that were found, and whether it is the program.
ghost use Rattle.std.specs.Prelude.{◌≡◌, [], false, true, IfOk, IfSome, IsTrue, None, Ok};
ghost use Rattle.aout_core.specs.Strip.{stripped};
ghost use Rattle.link_out.specs.{Outcomes.outcome_of, function.Link.link_of};
ghost use Rattle.tool_options.specs.{Choices.options_of, declared.options.Keep.TheVariants.Nothing};
ghost use Rattle.v7_origin.specs.{Whole.AreChosen, Whole.IsLinkOfAll, internal.Lists.IsAdded};
ghost use Rattle.v7_origin.specs.declared.linking.Compared.TheVariants.{Equal};

use crate::reading::{Source, object_in};
use aout_core::{File, Header, Symbol, strip_file};
use link_out::{Keep, Layout, LinkFault, Linked, Options, finish};
use link_session::{AddFault, Session};
use std::alloc::{AllocError, Global};
use texts::Text;

/// The layout that a magic number has.
pub(crate) fn layout_of(magic: u16) -> Layout {
    match magic {
        0o410 => Layout::Pure,
        0o411 => Layout::Split,
        _ => Layout::Plain,
    }
}

/// Adds the object of a file to a session, unless it passes a limit.
fn add(alloc: Global, session: &mut Session, source: &Source) -> Result<bool, AllocError>
    ensures { result ≡ Ok true → IsAdded source.now session.old session.new }
{
    let Ok(object) = object_in(alloc, &source.bytes)? else {
        return Ok(false);
    };
    let label = String::from_str(alloc, source.path.as_str())?;
    let Err(refusal) = session.add(label, object) else {
        return Ok(true);
    };
    match refusal.cause {
        AddFault::Memory(refused) => Err(AllocError::from(refused)),
        _ => Ok(false),
    }
}

/// The session of files in an order, unless they pass a limit.
pub(crate) fn session_of(
    alloc: Global,
    sources: &[Source],
    order: &[usize],
) -> Result<Option<Session>, AllocError>
    ensures { IfOk result (λ o. IfSome o (λ session.
        (session.forced ≡ []) × AreChosen sources.now order.now session.entries)) }
{
    let mut session = Session::new(alloc);
    for number in order {
        let Some(source) = sources.get(*number) else {
            return Ok(None);
        };
        if !add(alloc, &mut session, source)? {
            return Ok(None);
        }
    }
    Ok(Some(session))
}

/// The linked file with some of its symbols, unless the link is refused.
fn linked(
    alloc: Global,
    session: &Session,
    layout: Layout,
    keep: Keep,
) -> Result<Option<Linked>, AllocError>
    ensures { IfOk result (λ o. IfSome o (λ linked.
        link_of session.now (options_of layout false keep None) ≡ Ok (outcome_of linked))) }
{
    let Ok(options) = Options::new(layout, false, keep, None) else {
        return Ok(None);
    };
    match finish(alloc, session, &options) {
        Ok(linked) => Ok(Some(linked)),
        Err(LinkFault::Memory(refused)) => Err(AllocError::from(refused)),
        Err(_) => Ok(None),
    }
}

/// The symbols of the linked file.
pub(crate) fn linked_symbols(
    alloc: Global,
    session: &Session,
    layout: Layout,
    keep: Keep,
) -> Result<Vec<Symbol>, AllocError> {
    match linked(alloc, session, layout, keep)? {
        Some(linked) => Ok(linked.file.into_parts().symbols),
        None => Ok(Vec::new(alloc)),
    }
}

/// Whether two files are equal once both are stripped.
fn is_equal(one: &File, other: &File) -> bool
    ensures { IsTrue result → stripped one.now ≡ stripped other.now }
{
    let (first, second) = (one.header(), other.header());
    first.magic == second.magic
        && first.text_size == second.text_size
        && first.data_size == second.data_size
        && first.bss_size == second.bss_size
        && first.entry_point == second.entry_point
        && first.unused == second.unused
        && one.text_words() == other.text_words()
        && one.data_words() == other.data_words()
}

/// How a link compares to the program, once both are stripped.
#[derive(Drop)]
pub(crate) enum Compared {
    Equal,
    /// Where they differ first.
    Differs(Text),
}

/// Says which header word differs, if one does.
fn put_header(text: &mut Text, program: &Header, link: &Header) -> bool {
    for (name, one, other) in [
        ("the size of text", program.text_size, link.text_size),
        ("the size of data", program.data_size, link.data_size),
        ("the size of bss", program.bss_size, link.bss_size),
        ("the entry point", program.entry_point, link.entry_point),
        ("the unused word of the header", program.unused, link.unused),
    ] {
        if one != other {
            text.say(format_args!("{name} is {one:06o}, in the link {other:06o}"));
            return true;
        }
    }
    false
}

/// Says which word of a segment at an address differs first, if one does.
fn put_word(text: &mut Text, name: &str, start: usize, program: &[u16], link: &[u16]) -> bool {
    for (number, (one, other)) in program.iter().zip(link).enumerate() {
        if one != other {
            let address = start.wrapping_add(number.wrapping_mul(2));
            text.say(format_args!(
                "the word of {name} at {address:06o} is {one:06o}, in the link {other:06o}"
            ));
            return true;
        }
    }
    false
}

/// Says where a link differs from the program first.
fn difference(alloc: Global, program: &File, link: &File) -> Text {
    let mut text = Text::new(alloc);
    let start = program.header().data_start();
    let _ = put_header(&mut text, program.header(), link.header())
        || put_word(
            &mut text,
            "text",
            0,
            program.text_words(),
            link.text_words(),
        )
        || put_word(
            &mut text,
            "data",
            start,
            program.data_words(),
            link.data_words(),
        );
    text
}

/// Whether the link of a session in this layout is the program.
pub(crate) fn compare(
    alloc: Global,
    session: &Session,
    layout: Layout,
    program: &File,
) -> Result<Compared, AllocError>
    requires { session.now.forced ≡ [] }
    ensures { IfOk result (λ c. c ≡ Equal → IsLinkOfAll session.now.entries layout program.now) }
{
    let Some(linked) = linked(alloc, session, layout, Keep::Nothing)? else {
        let mut text = Text::new(alloc);
        text.put("the link is refused");
        return Ok(Compared::Differs(text));
    };
    if is_equal(&linked.file, program) {
        return Ok(Compared::Equal);
    }
    Ok(Compared::Differs(difference(alloc, program, &strip_file(linked.file))))
}
