//! The calls of libv7 for C and for what can call C: `v7.h` says what each is for.
//! What names no manual page is our own choice.
//!
//! Each call takes bytes of files, and writes bytes of files, text or records into buffers of its caller. Only a session is kept between
//! two calls. An object is the bytes that begin with it: its header gives its length.
//!
//! - `file_calls`, `disassembly`, `listing_calls`, `gnu_call`, `remarks_call`, `make_call`, `part_lists`: what the calls on one file give
//! - `places_call`: where an object is in a program
//! - `requests`, `output`: what is asked of a link, and what it gives
//! - `run`, `run_call`, `map_call`: a link, and its map
//! - `session_calls`, `session_json`: a session that C keeps in a `session_handle`, and its state
//! - `cause`: why a call gives nothing, and its number
//! - `answer`, `buffers`, `map`: how that is written into the buffers
#![tactic(auto)]

mod answer;
mod buffers;
mod cause;
mod decoding;
mod disassembly;
mod encoding;
mod file_calls;
mod findings;
mod gnu_call;
mod kept_session;
mod listing_calls;
mod loose;
mod make_call;
mod map;
mod map_call;
mod numbers;
mod output;
mod part_lists;
mod parts;
mod places;
mod places_call;
mod redefinitions;
mod remarks_call;
mod requests;
mod run;
mod run_call;
mod session_calls;
mod session_handle;
mod session_json;
mod slot;

ghost use Rattle.std.specs.Prelude.{◌≡◌, ◌≢◌, ◌⊎◌, ◌≤◌, [], None, Ok, IsOk};
ghost use Rattle.libv7.specs.Causes.{at};
ghost use Rattle.libv7.specs.FileAnswers.{IsAny, checked_in, file_in, names_in, sizes_in, stripped_in};
ghost use Rattle.libv7.specs.GnuAnswers.{ConversionMayRunOut, converted_in};
ghost use Rattle.libv7.specs.{ListingAnswers.{DescribedMayRunOut, IsListingOf, described_in}, MemoryWanted.HasBody};
ghost use Rattle.libv7.specs.ObjectParts.{file_for, made_of, parts_in, pieces, whole_in};
ghost use Rattle.libv7.specs.SessionLeft.{LeavesAdded, LeavesBegun, LeavesLink, LeavesShown, LeavesWithdrawn, kept_by};
ghost use Rattle.libv7.specs.RunLeft.{LeavesRun};
ghost use Rattle.libv7.specs.Left.{IsGiven, Leaves, LeavesBytes, LeavesBytesAt, LeavesPlaces, LeavesRemarks, LeavesText, Unplaced, apart_left, count_left, left, read_left};

use crate::answer::{Answer, Counts, FileHeader};
use crate::buffers::{
    leave_bytes, leave_bytes_at, leave_count, leave_done, leave_file, leave_parts, leave_remarks,
};
use crate::parts::{ObjectParts, ObjectWord, SymbolRow};
use crate::places_call::PlaceRecord;
use crate::remarks_call::RemarkRecord;
use crate::requests::Request;
use crate::run::RunAnswer;
use crate::session_handle::Handle;
use std::alloc::Global;

/// The version of the library, 0.4.0: 65,536 for each major version, 256 for each minor version, and the patch.
#[unsafe(no_mangle)]
pub extern "C" fn v7_version() -> u32
    ensures { result ≡ 1024 }
{
    0x0000_0400
}

/// Checks an object, and gives how many bytes it takes.
#[tactic(auto, using(crate::proofs::LeftLemmas::count_leaves))]
#[unsafe(no_mangle)]
pub extern "C" fn v7_check(alloc: Global, bytes: &[u8], answer: &mut Answer) -> u32
    ensures { Leaves (IsGiven (at 0 (checked_in bytes.now)) (Unplaced (HasBody bytes.now))) count_left
        (left result answer.new []) }
{
    leave_count(file_calls::check(alloc, bytes), answer)
}

/// Strips a file.
#[tactic(auto, using(crate::proofs::LeftLemmas::bytes_leave))]
#[unsafe(no_mangle)]
pub extern "C" fn v7_strip(alloc: Global, bytes: &[u8], room: &mut [u8], answer: &mut Answer) -> u32
    ensures { LeavesBytes (stripped_in bytes.now) (IsOk (stripped_in bytes.now)) room.old
        (left result answer.new room.new) }
{
    leave_bytes(file_calls::strip(alloc, bytes), room, answer)
}

/// Writes the lines of nm for a file.
#[tactic(auto, using(crate::proofs::LeftLemmas::bytes_leave))]
#[unsafe(no_mangle)]
pub extern "C" fn v7_nm(
    alloc: Global,
    options: u32,
    bytes: &[u8],
    room: &mut [u8],
    answer: &mut Answer,
) -> u32
    ensures { LeavesBytes (names_in options bytes.now) (IsOk (names_in options bytes.now)) room.old
        (left result answer.new room.new) }
{
    leave_bytes(
        file_calls::list_symbols(alloc, options, bytes),
        room,
        answer,
    )
}

/// Writes the line of size for a file.
#[tactic(auto, using(crate::proofs::LeftLemmas::bytes_leave))]
#[unsafe(no_mangle)]
pub extern "C" fn v7_size(alloc: Global, bytes: &[u8], room: &mut [u8], answer: &mut Answer) -> u32
    ensures { LeavesBytes (sizes_in bytes.now) (IsOk (sizes_in bytes.now)) room.old
        (left result answer.new room.new) }
{
    leave_bytes(file_calls::show_sizes(alloc, bytes), room, answer)
}

/// Shows the text of a file as instructions.
#[tactic(auto, using(crate::proofs::LeftLemmas::text_leaves))]
#[unsafe(no_mangle)]
pub extern "C" fn v7_disassemble(
    alloc: Global,
    bytes: &[u8],
    room: &mut [u8],
    answer: &mut Answer,
) -> u32
    ensures { LeavesText IsAny (file_in bytes.now) (IsOk (file_in bytes.now)) room.old
        (left result answer.new room.new) }
{
    leave_bytes(disassembly::disassemble(alloc, bytes), room, answer)
}

/// Shows words as instructions, the first of them at an address.
#[tactic(auto, using(crate::proofs::LeftLemmas::words_leave))]
#[unsafe(no_mangle)]
pub extern "C" fn v7_disassemble_words(
    alloc: Global,
    address: u16,
    words: &[u16],
    room: &mut [u8],
    answer: &mut Answer,
) -> u32
    ensures { LeavesText IsAny (Ok words.now) (words.now ≢ []) room.old
        (left result answer.new room.new) }
{
    leave_bytes(
        disassembly::disassemble_words(alloc, address, words),
        room,
        answer,
    )
}

/// Lists a file.
#[tactic(auto, using(crate::proofs::LeftLemmas::text_leaves))]
#[unsafe(no_mangle)]
pub extern "C" fn v7_list(alloc: Global, bytes: &[u8], room: &mut [u8], answer: &mut Answer) -> u32
    ensures { LeavesText IsListingOf (file_in bytes.now) (IsOk (file_in bytes.now)) room.old
        (left result answer.new room.new) }
{
    leave_bytes(listing_calls::list_file(alloc, bytes), room, answer)
}

/// Makes the file of a listing.
#[tactic(auto, using(crate::proofs::LeftLemmas::bytes_leave_at))]
#[unsafe(no_mangle)]
pub extern "C" fn v7_from_listing(
    alloc: Global,
    text: &[u8],
    room: &mut [u8],
    answer: &mut Answer,
) -> u32
    ensures { LeavesBytesAt (described_in text.now) (DescribedMayRunOut text.now) room.old
        (left result answer.new room.new) }
{
    leave_bytes_at(listing_calls::from_listing(alloc, text), room, answer)
}

/// Converts an object of GNU's assembler.
#[tactic(auto, using(crate::proofs::LeftLemmas::bytes_leave_at))]
#[unsafe(no_mangle)]
pub extern "C" fn v7_from_gnu(
    alloc: Global,
    options: u32,
    bytes: &[u8],
    room: &mut [u8],
    answer: &mut Answer,
) -> u32
    ensures { LeavesBytesAt (converted_in options bytes.now) (ConversionMayRunOut options bytes.now)
        room.old (left result answer.new room.new) }
{
    leave_bytes_at(gnu_call::from_gnu(alloc, options, bytes), room, answer)
}

/// Tells what is wrong and odd in a file.
#[tactic(auto, using(crate::proofs::LeftLemmas::remarks_leave))]
#[unsafe(no_mangle)]
pub extern "C" fn v7_remarks(
    alloc: Global,
    bytes: &[u8],
    texts: &mut [u8],
    remarks: &mut [RemarkRecord],
    answer: &mut Answer,
) -> u32
    ensures { LeavesRemarks bytes.now texts.old remarks.old
        (left result answer.new (texts.new, remarks.new)) }
{
    leave_remarks(
        remarks_call::remarks_of(alloc, bytes),
        texts,
        remarks,
        answer,
    )
}

/// Tells where an object is in a program.
#[tactic(auto, using(crate::proofs::LeftLemmas::places_leave))]
#[unsafe(no_mangle)]
pub extern "C" fn v7_places(
    alloc: Global,
    program: &[u8],
    object: &[u8],
    places: &mut [PlaceRecord],
    answer: &mut Answer,
) -> u32
    ensures { LeavesPlaces program.now object.now places.old (left result answer.new places.new) }
{
    leave_bytes_at(
        places_call::places_of(alloc, program, object),
        places,
        answer,
    )
}

/// Links objects, by one request with one result.
#[unsafe(no_mangle)]
pub extern "C" fn v7_run(alloc: Global, request: &Request<'_>, answer: &mut RunAnswer<'_>) -> u32
    ensures left { LeavesRun request.now answer.old answer.new result }
    ensures most { answer.new.file_size ≤ 327684 }
{
    let given = run::answer_to(alloc, request, answer.size);
    run::leave(alloc, answer, given)
}

/// Makes an object of its parts.
#[tactic(auto, using(crate::proofs::LeftLemmas::bytes_leave))]
#[unsafe(no_mangle)]
pub extern "C" fn v7_make(
    alloc: Global,
    text: &[ObjectWord],
    data_words: &[ObjectWord],
    bss: u32,
    symbols: &[SymbolRow],
    room: &mut [u8],
    answer: &mut Answer,
) -> u32
    ensures { LeavesBytes (made_of (pieces text.now data_words.now bss symbols.now))
        (IsOk (file_for (pieces text.now data_words.now bss symbols.now))) room.old
        (left result answer.new room.new) }
{
    let parts = ObjectParts {
        text,
        data: data_words,
        bss,
        symbols,
    };
    leave_bytes(make_call::make(alloc, &parts), room, answer)
}

/// Takes an object apart.
#[tactic(auto, using(crate::proofs::LeftLemmas::parts_leave))]
#[unsafe(no_mangle)]
pub extern "C" fn v7_take_apart(
    alloc: Global,
    bytes: &[u8],
    text: &mut [ObjectWord],
    data_words: &mut [ObjectWord],
    symbols: &mut [SymbolRow],
    counts: &mut Counts,
    answer: &mut Answer,
) -> u32
    ensures { Leaves (IsGiven (at 0 (parts_in bytes.now))
        (Unplaced (HasBody bytes.now ⊎ IsOk (parts_in bytes.now))))
        (apart_left text.old data_words.old symbols.old)
        (left result answer.new (counts.new, text.new, data_words.new, symbols.new)) }
{
    let parts = part_lists::take_apart(alloc, bytes);
    let (status, there) = leave_parts(parts, text, data_words, symbols, answer);
    *counts = there;
    status
}

/// Reads a file, an object or another.
#[tactic(auto, using(crate::proofs::LeftLemmas::file_leaves))]
#[unsafe(no_mangle)]
pub extern "C" fn v7_read(
    alloc: Global,
    bytes: &[u8],
    header: &mut FileHeader,
    text: &mut [ObjectWord],
    data_words: &mut [ObjectWord],
    symbols: &mut [SymbolRow],
    counts: &mut Counts,
    answer: &mut Answer,
) -> u32
    ensures { Leaves (IsGiven (at 0 (whole_in bytes.now)) (Unplaced (IsOk (whole_in bytes.now))))
        (read_left text.old data_words.old symbols.old)
        (header.new, left result answer.new (counts.new, text.new, data_words.new, symbols.new)) }
{
    let file = part_lists::read_apart(alloc, bytes);
    let (status, there) = leave_file(file, header, text, data_words, symbols, answer);
    *counts = there;
    status
}

/// Begins a session.
#[tactic(auto, using(crate::proofs::SessionLeftLemmas::change_left))]
#[unsafe(no_mangle)]
pub extern "C" fn v7_session_new(
    alloc: Global,
    session: &mut Handle,
    forced: &[u8],
    answer: &mut Answer,
) -> u32
    ensures { LeavesBegun forced.now (kept_by session.old) (kept_by session.new) (left result answer.new []) }
{
    leave_done(session_calls::begin(alloc, session, forced), answer)
}

/// Adds an object to a session.
#[tactic(auto, using(crate::proofs::SessionLeftLemmas::change_left))]
#[unsafe(no_mangle)]
pub extern "C" fn v7_session_add(
    alloc: Global,
    session: &mut Handle,
    bytes: &[u8],
    answer: &mut Answer,
) -> u32
    ensures { LeavesAdded bytes.now (kept_by session.old) (kept_by session.new) (left result answer.new []) }
{
    leave_done(session_calls::add(alloc, session, bytes), answer)
}

/// Takes the object away that was added last to a session.
#[tactic(auto, using(crate::proofs::SessionLeftLemmas::change_left))]
#[unsafe(no_mangle)]
pub extern "C" fn v7_session_withdraw(
    alloc: Global,
    session: &mut Handle,
    answer: &mut Answer,
) -> u32
    ensures { LeavesWithdrawn (kept_by session.old) (kept_by session.new) (left result answer.new []) }
{
    leave_done(session_calls::withdraw(alloc, session), answer)
}

/// Links what a session keeps.
#[unsafe(no_mangle)]
pub extern "C" fn v7_session_link(
    alloc: Global,
    session: &mut Handle,
    request: &Request<'_>,
    answer: &mut RunAnswer<'_>,
) -> u32
    ensures left { LeavesLink (kept_by session.old) request.now answer.old answer.new result }
    ensures most { answer.new.file_size ≤ 327684 }
    ensures unchanged { kept_by session.new ≡ kept_by session.old }
{
    let given = session_calls::link_for(alloc, session, request, answer.size);
    run::leave(alloc, answer, given)
}

/// Gives what a session shows.
#[tactic(auto, using(crate::proofs::SessionLeftLemmas::state_shown))]
#[unsafe(no_mangle)]
pub extern "C" fn v7_session_state(
    alloc: Global,
    session: &mut Handle,
    room: &mut [u8],
    answer: &mut Answer,
) -> u32
    ensures left { LeavesShown (kept_by session.old) room.old (left result answer.new room.new) }
    ensures unchanged { kept_by session.new ≡ kept_by session.old }
{
    leave_bytes_at(session_calls::state(alloc, session), room, answer)
}

/// Ends a session.
#[unsafe(no_mangle)]
pub extern "C" fn v7_session_free(alloc: Global, session: &mut Handle) -> u32
    ensures status { result ≡ 0 }
    ensures ended { kept_by session.new ≡ None }
{
    match session.take(alloc) {
        None => {}
        Some(kept) => drop(kept),
    }
    0
}
