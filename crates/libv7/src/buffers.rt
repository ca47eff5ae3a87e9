//! What a call gives, written into the buffers of its caller.
ghost use Rattle.std.specs.Prelude.{◌≡◌, ◌≤◌, [], length, Ok, true};
ghost use Rattle.libv7.specs.{Causes.at, ObjectParts.{pieces_in, whole_of}, RemarkAnswers.remarks_in};
ghost use Rattle.libv7.specs.Left.{apart_left, bytes_left, bytes_of, bytes_or, count_left, counts_of, done_by, left, put_in, read_left, refusal_in, refused, remarks_left, room, view_of, with_items};

use crate::answer::{Answer, Counts, FileHeader};
use crate::cause::{Cause, Refusal};
use crate::parts::{FileLists, ObjectWord, PartLists, SymbolRow};
use crate::remarks_call::{RemarkRecord, Remarks};

/// The fault if a buffer is too short.
pub(crate) const NO_ROOM: u32 = 60;

/// Writes bytes, or what else there is, at the beginning of a buffer.
fn put<T: Copy>(items: &[T], buffer: &mut [T])
    requires { length items.now ≤ length buffer.old }
    ensures { buffer.new ≡ put_in buffer.old items.now }
{
    buffer[..items.len()].copy_from_slice(items);
}

/// Tells how many items there are, and writes them at the beginning of a buffer if all fits.
pub(crate) fn leave_items<T: Copy>(fits: bool, items: &[T], buffer: &mut [T], count: &mut usize)
    requires { fits ≡ true → length items.now ≤ length buffer.old }
    ensures left { room count.new buffer.new ≡ with_items fits items.now (room count.old buffer.old) }
    ensures count { count.new ≡ length items.now }
{
    *count = items.len();
    if fits {
        put(items, buffer);
    }
}

fn refuse(refusal: Refusal, answer: &mut Answer) -> u32
    ensures status { result ≡ 2 }
    ensures answer { answer.new ≡ refused refusal }
{
    *answer = Answer::refused(refusal);
    2
}

/// Answers by a number of bytes.
pub(crate) fn leave_count(count: Result<usize, Cause>, answer: &mut Answer) -> u32
    ensures { left result answer.new [] ≡ count_left (at 0 count) }
{
    match count {
        Ok(count) => {
            *answer = Answer::given(0, count, 0);
            0
        }
        Err(cause) => refuse(Refusal::from(cause), answer),
    }
}

/// Answers by a change: it was made, or refused.
pub(crate) fn leave_done(done: Result<(), Refusal>, answer: &mut Answer) -> u32
    ensures { left result answer.new [] ≡ done_by (refusal_in done) }
{
    match done {
        Ok(()) => {
            *answer = Answer::given(0, 0, 0);
            0
        }
        Err(refusal) => refuse(refusal, answer),
    }
}

/// Writes bytes, or what else there is, into the buffer, if all fits.
fn leave_all<T: Copy>(items: &[T], buffer: &mut [T], answer: &mut Answer) -> u32
    ensures { left result answer.new buffer.new ≡ bytes_left buffer.old (Ok items.now) }
{
    if buffer.len() < items.len() {
        *answer = Answer::given(NO_ROOM, items.len(), 0);
        return 2;
    }
    put(items, buffer);
    *answer = Answer::given(0, items.len(), 0);
    0
}

/// Writes bytes into the buffer, if there are some and they fit.
pub(crate) fn leave_bytes(
    bytes: Result<Vec<u8>, Cause>,
    buffer: &mut [u8],
    answer: &mut Answer,
) -> u32
    ensures { left result answer.new buffer.new ≡ bytes_left buffer.old (bytes_of bytes) }
{
    match bytes {
        Ok(bytes) => leave_all(&bytes, buffer, answer),
        Err(cause) => refuse(Refusal::from(cause), answer),
    }
}

/// The same of bytes, or of what else there is, that are refused at some place.
pub(crate) fn leave_bytes_at<T: Copy>(
    items: Result<Vec<T>, Refusal>,
    buffer: &mut [T],
    answer: &mut Answer,
) -> u32
    ensures { left result answer.new buffer.new ≡ bytes_left buffer.old (bytes_or items) }
{
    match items {
        Ok(items) => leave_all(&items, buffer, answer),
        Err(refusal) => refuse(refusal, answer),
    }
}

/// Writes remarks and their texts into the buffers, if both fit.
fn leave_all_remarks(
    remarks: &Remarks,
    texts: &mut [u8],
    records: &mut [RemarkRecord],
    answer: &mut Answer,
) -> u32
    ensures { left result answer.new (texts.new, records.new)
        ≡ remarks_left texts.old records.old (Ok (remarks_in remarks.now)) }
{
    let size = remarks.texts.len();
    let count = remarks.records.len();
    if texts.len() < size || records.len() < count {
        *answer = Answer::given(NO_ROOM, size, count);
        return 2;
    }
    put(&remarks.texts, texts);
    put(&remarks.records, records);
    *answer = Answer::given(0, size, count);
    u32::from(remarks.status)
}

/// Writes remarks and their texts into the buffers, if there are some and both fit.
pub(crate) fn leave_remarks(
    remarks: Result<Remarks, Cause>,
    texts: &mut [u8],
    records: &mut [RemarkRecord],
    answer: &mut Answer,
) -> u32
    ensures { left result answer.new (texts.new, records.new)
        ≡ remarks_left texts.old records.old (at 0 (view_of remarks_in remarks)) }
{
    match remarks {
        Ok(remarks) => leave_all_remarks(&remarks, texts, records, answer),
        Err(cause) => refuse(Refusal::from(cause), answer),
    }
}

/// The numbers of words and symbols.
fn counts_of(parts: &PartLists) -> Counts
    ensures { result ≡ counts_of (pieces_in parts.now) }
{
    Counts {
        text: parts.text.len(),
        data: parts.data.len(),
        symbols: parts.symbols.len(),
        bss: u32::from(parts.bss),
    }
}

/// Writes the parts of an object into the buffers, if all fit.
fn leave_lists(
    parts: &PartLists,
    text: &mut [ObjectWord],
    data_words: &mut [ObjectWord],
    symbols: &mut [SymbolRow],
    answer: &mut Answer,
) -> u32
    ensures { left result answer.new (counts_of (pieces_in parts.now), text.new, data_words.new, symbols.new)
        ≡ apart_left text.old data_words.old symbols.old (Ok (pieces_in parts.now)) }
{
    if text.len() < parts.text.len()
        || data_words.len() < parts.data.len()
        || symbols.len() < parts.symbols.len()
    {
        *answer = Answer::given(NO_ROOM, 0, 0);
        return 2;
    }
    put(&parts.text, text);
    put(&parts.data, data_words);
    put(&parts.symbols, symbols);
    *answer = Answer::given(0, 0, 0);
    0
}

/// Writes the parts of an object into the buffers, if there are some, and returns the status and their numbers.
pub(crate) fn leave_parts(
    parts: Result<PartLists, Cause>,
    text: &mut [ObjectWord],
    data_words: &mut [ObjectWord],
    symbols: &mut [SymbolRow],
    answer: &mut Answer,
) -> (u32, Counts)
    ensures { left result.0 answer.new (result.1, text.new, data_words.new, symbols.new)
        ≡ apart_left text.old data_words.old symbols.old (at 0 (view_of pieces_in parts)) }
{
    match parts {
        Ok(parts) => {
            let status = leave_lists(&parts, text, data_words, symbols, answer);
            (status, counts_of(&parts))
        }
        Err(cause) => {
            let none = Counts {
                text: 0,
                data: 0,
                symbols: 0,
                bss: 0,
            };
            (refuse(Refusal::from(cause), answer), none)
        }
    }
}

/// Writes the header and the parts of a file, if there is one and all fit, and returns the status and their numbers.
pub(crate) fn leave_file(
    file: Result<FileLists, Cause>,
    header: &mut FileHeader,
    text: &mut [ObjectWord],
    data_words: &mut [ObjectWord],
    symbols: &mut [SymbolRow],
    answer: &mut Answer,
) -> (u32, Counts)
    ensures { (header.new, left result.0 answer.new (result.1, text.new, data_words.new, symbols.new))
        ≡ read_left text.old data_words.old symbols.old (at 0 (view_of whole_of file)) }
{
    match file {
        Ok(file) => {
            *header = FileHeader::of(&file.header);
            leave_parts(Ok(file.parts), text, data_words, symbols, answer)
        }
        Err(cause) => {
            *header = FileHeader::none();
            leave_parts(Err(cause), text, data_words, symbols, answer)
        }
    }
}
