//! What a session knows, as JSON.
ghost use Rattle.std.specs.Prelude.{◌≡◌, ◌*◌, ◌≤◌, ◌<◌, length, false, Ok, IfErr, IfOk};
ghost use Rattle.std.specs.{Fmt.digit_glyph, List.flat_map};
ghost use Rattle.link_session.specs.{Sessions.newest, Labelled.objects, Undo.{IsJournal, image_of}};
ghost use Rattle.aout_core.specs.Refusals.{refused};
ghost use Rattle.texts.specs.Texts.{Puts};
ghost use Rattle.libv7.specs.{SessionAnswers.{HasJournal, shown_in}, declared.cause.Cause.TheVariants.{Memory}};
ghost use Rattle.libv7.specs.Items.{each, name_at, named};
ghost use Rattle.libv7.specs.SessionJson.{body_text, bss_text, cell_item, cell_text, external_item, front_text, head_text, image_text, json_byte, mark_item, mark_text, marks_text, multiple_item, name_text, names_text, relative_text, shown_text, state_text, state_value, state_words, target_text, valued_text, wanted_words, words_text};

use crate::cause::Cause;
use aout_core::{Name, Segment};
use link_session::{Cell, Mark, Place, Session, State, Target};
use std::alloc::{AllocError, Global};
use texts::Text;

/// Appends what an item of this index begins with.
fn put_front(text: &mut Text, index: usize, words: &str)
    ensures { Puts text.old text.new (front_text index words.now) }
{
    text.put(if index == 0 { "" } else { "," });
    text.put(words);
}

fn put_valued(text: &mut Text, words: &str, number: u32)
    ensures { Puts text.old text.new (valued_text words.now number) }
{
    text.put(words);
    text.put_decimal(u64::from(number));
}

fn hex_digit(digit: u8) -> u8
    requires { digit < 16 }
    ensures { result ≡ digit_glyph false digit }
{
    if digit < 10 {
        b'0' + digit
    } else {
        b'a' + (digit - 10)
    }
}

fn put_json_byte(text: &mut Text, byte: u8)
    ensures { Puts text.old text.new (json_byte byte) }
{
    if byte > 31 && byte < 127 && byte != b'"' && byte != b'\\' {
        return text.put_byte(byte);
    }
    text.put("\\u00");
    text.put_byte(hex_digit(byte / 16));
    text.put_byte(hex_digit(byte % 16));
}

fn put_json_bytes(text: &mut Text, bytes: &[u8])
    ensures { Puts text.old text.new (flat_map json_byte bytes.now) }
{
    for byte in bytes {
        put_json_byte(text, *byte);
    }
}

fn put_name(text: &mut Text, name: &Name)
    ensures { Puts text.old text.new (name_text name.now) }
{
    text.put("\"");
    put_json_bytes(text, name.as_bytes());
    text.put("\"");
}

/// The name of the external of this index; the empty name if there are fewer.
fn name_at(session: &Session, index: u16) -> Name
    ensures { result ≡ name_at (image_of session.now).externals index }
{
    match session.external(index) {
        Some((name, _)) => name,
        None => Name::from_bytes(b""),
    }
}

/// Appends what a word refers to, or waits for.
fn put_target(text: &mut Text, session: &Session, target: Target)
    ensures { Puts text.old text.new (target_text (named session.now) target) }
{
    match target {
        Target::Absolute => text.put("\"number\""),
        Target::TextSeg => text.put("\"text\""),
        Target::DataSeg => text.put("\"data\""),
        Target::BssSeg => text.put("\"bss\""),
        Target::External(index) => {
            text.put("\"external\",\"name\":");
            put_name(text, &name_at(session, index));
        }
    }
}

/// Appends whether a word is relative to `pc`.
fn put_relative(text: &mut Text, pc: bool)
    ensures { Puts text.old text.new (relative_text pc) }
{
    text.put(if pc {
        ",\"pc\":true,\"target\":"
    } else {
        ",\"pc\":false,\"target\":"
    });
}

/// Appends a word, whether it is relative to `pc`, and what it refers to or waits for.
fn put_cell(text: &mut Text, session: &Session, cell: Cell)
    ensures { Puts text.old text.new (cell_text (named session.now) cell) }
{
    put_valued(text, "\"value\":", u32::from(cell.value));
    put_relative(text, cell.pc);
    put_target(text, session, cell.target);
}

/// What says that an external is undefined, or a common of so many bytes.
fn wanted_words(size: u16) -> &'static str
    ensures { result.now ≡ wanted_words size }
{
    if size == 0 {
        "\"state\":\"undefined\",\"value\":"
    } else {
        "\"state\":\"common\",\"value\":"
    }
}

/// What says in which state an external is.
fn state_words(state: State) -> &'static str
    ensures { result.now ≡ state_words state }
{
    match state {
        State::Defined(Segment::TextSeg, _) => "\"state\":\"text\",\"value\":",
        State::Defined(Segment::DataSeg, _) => "\"state\":\"data\",\"value\":",
        State::Defined(Segment::BssSeg, _) => "\"state\":\"bss\",\"value\":",
        State::Defined(_, _) => "\"state\":\"number\",\"value\":",
        State::Wanted(size) => wanted_words(size),
    }
}

/// The value or the size of an external.
fn state_value(state: State) -> u16
    ensures { result ≡ state_value state }
{
    match state {
        State::Defined(_, value) | State::Wanted(value) => value,
    }
}

/// Appends what is known of an external.
fn put_state(text: &mut Text, state: State)
    ensures { Puts text.old text.new (state_text state) }
{
    put_valued(text, state_words(state), u32::from(state_value(state)));
}

/// Appends the word of this index in its segment.
fn put_cell_item(text: &mut Text, session: &Session, index: usize, cell: Cell)
    requires { index < 65536 }
    ensures { Puts text.old text.new (cell_item (named session.now) index cell) }
{
    put_front(text, index, "{\"offset\":");
    text.put_decimal(2 * index as u64);
    text.put(",");
    put_cell(text, session, cell);
    text.put("}");
}

#[tactic(auto, using(crate::proofs::ItemLemmas::by_item))]
fn put_cells(text: &mut Text, session: &Session, cells: &[Cell])
    requires { 2 * length cells.now ≤ 65534 }
    ensures { Puts text.old text.new (each (cell_item (named session.now)) cells.now) }
{
    for (index, cell) in cells.iter().enumerate() {
        put_cell_item(text, session, index, *cell);
    }
}

/// Appends an external: its name, and what is known of it.
fn put_external(text: &mut Text, index: u16, name: &Name, state: State)
    ensures { Puts text.old text.new (external_item index (name.now, state)) }
{
    put_front(text, usize::from(index), "{\"name\":");
    put_name(text, name);
    text.put(",");
    put_state(text, state);
    text.put("}");
}

fn put_externals(text: &mut Text, session: &Session)
    ensures { Puts text.old text.new (each external_item (named session.now)) }
{
    for index in 0..session.external_count() {
        let (name, state) = session.external(index).unwrap();
        put_external(text, index, &name, state);
    }
}

fn put_multiple(text: &mut Text, index: usize, name: &Name)
    ensures { Puts text.old text.new (multiple_item index name.now) }
{
    put_front(text, index, "");
    put_name(text, name);
}

#[tactic(auto, using(crate::proofs::ItemLemmas::by_item))]
fn put_multiples(text: &mut Text, names: &[Name])
    ensures { Puts text.old text.new (each multiple_item names.now) }
{
    for (index, name) in names.iter().enumerate() {
        put_multiple(text, index, name);
    }
}

/// Appends the place or the name of which an addition overwrote something, and what was there.
fn put_mark(text: &mut Text, session: &Session, mark: Mark)
    ensures { Puts text.old text.new (mark_text (named session.now) mark) }
{
    match mark {
        Mark::CellWas(place, cell) => {
            let (words, index) = match place {
                Place::InText(index) => ("\"segment\":\"text\",\"offset\":", index),
                Place::InData(index) => ("\"segment\":\"data\",\"offset\":", index),
            };
            put_valued(text, words, 2 * u32::from(index));
            text.put(",\"was\":{");
            put_cell(text, session, cell);
        }
        Mark::StateWas(index, state) => {
            text.put("\"name\":");
            put_name(text, &name_at(session, index));
            text.put(",\"was\":{");
            put_state(text, state);
        }
    }
}

fn put_mark_item(text: &mut Text, session: &Session, index: usize, mark: Mark)
    ensures { Puts text.old text.new (mark_item (named session.now) index mark) }
{
    put_front(text, index, "{");
    put_mark(text, session, mark);
    text.put("}}");
}

/// Appends what the addition of the last object overwrote.
#[tactic(auto, using(crate::proofs::ItemLemmas::by_item))]
fn put_marks(text: &mut Text, session: &Session)
    ensures marks { Puts text.old text.new (each (mark_item (named session.now)) (newest session.now.journal)) }
    ensures journal { IsJournal session.now.forced (objects session.now.entries) session.now.journal }
{
    for (index, mark) in session.last_marks().iter().enumerate() {
        put_mark_item(text, session, index, *mark);
    }
}

/// Appends how many objects there are.
fn put_head(text: &mut Text, count: u64)
    ensures { Puts text.old text.new (head_text count) }
{
    text.put("{\"objects\":");
    text.put_decimal(count);
}

/// Appends the size of bss in bytes.
fn put_bss(text: &mut Text, size: u16)
    ensures { Puts text.old text.new (bss_text size) }
{
    put_valued(text, "],\"bss\":", u32::from(size));
    text.put(",\"externals\":[");
}

/// Appends the words of the merged text and data.
fn put_words(text: &mut Text, session: &Session)
    ensures { Puts text.old text.new (words_text (image_of session.now)) }
{
    text.put(",\"text\":[");
    put_cells(text, session, session.text_cells());
    text.put("],\"data\":[");
    put_cells(text, session, session.data_cells());
}

/// Appends the externals, and the names that are multiply defined.
fn put_names(text: &mut Text, session: &Session)
    ensures { Puts text.old text.new (names_text (image_of session.now)) }
{
    put_externals(text, session);
    text.put("],\"multiples\":[");
    put_multiples(text, session.multiples());
}

/// Appends the merged image.
fn put_image(text: &mut Text, session: &Session)
    ensures { Puts text.old text.new (image_text (image_of session.now)) }
{
    put_words(text, session);
    put_bss(text, session.bss_total());
    put_names(text, session);
}

/// Appends what the addition of the last object overwrote, as the end of the object.
fn put_overwritten(text: &mut Text, session: &Session)
    ensures marks { Puts text.old text.new (marks_text session.now) }
    ensures journal { IsJournal session.now.forced (objects session.now.entries) session.now.journal }
{
    text.put("],\"marks\":[");
    put_marks(text, session);
    text.put("]}");
}

/// Appends all but how many objects there are.
fn put_body(text: &mut Text, session: &Session)
    ensures body { Puts text.old text.new (body_text session.now) }
    ensures journal { IsJournal session.now.forced (objects session.now.entries) session.now.journal }
{
    put_image(text, session);
    put_overwritten(text, session);
}

/// The text of what a session knows.
fn shown_text(alloc: Global, session: &Session) -> Result<Vec<u8>, AllocError>
    ensures text { IfOk result (λ text. text.items ≡ shown_text session.now) }
    ensures journal { IfOk result (λ _.
        IsJournal session.now.forced (objects session.now.entries) session.now.journal) }
{
    let mut text = Text::new(alloc);
    put_head(&mut text, session.entries().len() as u64);
    put_body(&mut text, session);
    text.finish()
}

/// What a session knows, in this order (own choice; JSON: RFC 8259):
///
/// - `objects`: how many there are
/// - the words of the merged `text` and `data`, each with its `offset` in bytes, its `value`, whether it is relative to `pc`, and its
///   `target`: what it refers to, or with `external` the `name` that it waits for
/// - the size of `bss` in bytes
/// - each of the `externals` with its `name`, its `state` and, as `value`, the offset, the size or the number that it has
/// - the names that are multiply defined, `multiples`
/// - `marks`: what the addition of the last object overwrote, in the order in which it did. A mark has `segment` and `offset`, or `name`,
///   and `was` with what was there
///
/// Numbers are decimal, and in a name a byte that does not print, a quote and a backslash are `\u00` and two hexadecimal digits.
///
/// Errors: `Memory`, 50, if memory runs out for the text.
pub(crate) fn state_of(alloc: Global, session: &Session) -> Result<Vec<u8>, Cause>
    ensures ok { IfOk result (λ state. shown_in session.now ≡ Ok state.items) }
    ensures err { IfErr result (λ cause. cause ≡ Memory refused) }
    ensures journal { IfOk result (λ _. HasJournal session.now) }
{
    Ok(shown_text(alloc, session)?)
}
