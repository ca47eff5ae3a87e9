//! Reads the listing of a file.
ghost use Rattle.std.specs.Prelude.{◌≡◌, ◌≢◌, ◌⊎◌, ◌+◌, IfOk, IfErr, IsSome};
ghost use Rattle.aout_core.specs.{Contents.{Contents, IsSound}, Refusals.refused};
ghost use Rattle.listings.specs.{declared.fault.ListingFault.TheVariants.Memory, Columns.row_of, Drafts.finished};
ghost use Rattle.listings.specs.{Listing.IsListed, Reading.{file_of, noted_by, line_read, lines_read, read}};
ghost use Rattle.listings.specs.{MemoryWanted.{IsEntry, IsLater, ListingMayRunOut, MayRunOutInLines}, Said.{Gives, Says}};
ghost use Rattle.listings.specs.{internal.DraftParts.draft_of, internal.Lines.{noted_of, state_of}, internal.Whole.IsDraft};
ghost use Rattle.texts.specs.Lines.{lines_in};

use crate::columns::{column_place, cut_line, first_stray};
use crate::draft::{Addresses, FileDraft};
use crate::fault::{Fault, ListingFault, Mistakes, Reason, RowFault, Section};
use crate::rows::{has_head, pass, read_row};
use aout_core::{File, Header, Parts, Refused};
use std::alloc::Global;

/// The mistakes so far: the first, and up to nine others.
#[derive(Drop)]
struct Noting {
    first: Option<Fault>,
    others: Vec<Fault>,
}

/// Notes a mistake.
fn note(noting: &mut Noting, fault: Fault) -> Result<(), Refused>
    ensures ok { IfOk result (λ u.
        noted_of noting.new ≡ noted_by noting.old.first noting.old.others.items fault) }
    ensures memory { IfErr result (λ r. IsSome noting.old.first) }
{
    if noting.first.is_none() {
        noting.first = Some(fault);
        return Ok(());
    }
    if noting.others.len() < 9 {
        noting.others.push(fault)?;
    }
    Ok(())
}

fn read_line(
    alloc: Global,
    draft: &mut FileDraft,
    noting: &mut Noting,
    number: usize,
    line: &[u8],
) -> Result<(), Refused>
    ensures goes { IfOk result (λ u. state_of (number + 1) draft.new noting.new
        ≡ line_read (state_of number draft.old noting.old) line.now) }
    ensures memory { IfErr result (λ r. IsEntry (draft_of draft.old) (row_of line.now)
        ⊎ IsLater (state_of number draft.old noting.old) (row_of line.now)) }
{
    match read_row(alloc, draft, line) {
        Ok(()) => Ok(()),
        Err(RowFault::Memory(refused)) => Err(refused),
        Err(RowFault::Wrong(place, reason)) => {
            pass(draft, line);
            let column = column_place(place, line);
            note(
                noting,
                Fault {
                    line: number,
                    column,
                    reason,
                },
            )
        }
    }
}

/// Reads all lines, and returns the number of the line after the last.
fn read_lines(
    alloc: Global,
    draft: &mut FileDraft,
    noting: &mut Noting,
    text: &[u8],
) -> Result<usize, Refused>
    requires { IsDraft (draft_of draft.old) }
    ensures read { IfOk result (λ number. state_of number draft.new noting.new
        ≡ lines_read (state_of 1 draft.old noting.old) (lines_in text.now)) }
    ensures whole { IfOk result (λ u. IsDraft (draft_of draft.new)) }
    ensures memory { IfErr result (λ r.
        MayRunOutInLines (state_of 1 draft.old noting.old) (lines_in text.now)) }
{
    let mut rest = text;
    let mut number = 1usize;
    while !rest.is_empty() {
        let (line, others) = cut_line(rest);
        read_line(alloc, draft, noting, number, line)?;
        number += 1;
        rest = others;
    }
    Ok(number)
}

fn finish(draft: FileDraft) -> File
    requires { IsDraft (draft_of draft) }
    ensures { result ≡ finished (draft_of draft) }
{
    let FileDraft {
        addresses: _,
        section: _,
        next: _,
        magic,
        bss,
        entry,
        unused,
        flag,
        text_part,
        data_part,
        symbols,
    } = draft;
    File::from_parts(Parts {
        header: Header {
            magic,
            text_size: (2 * text_part.words.len()) as u16,
            data_size: (2 * data_part.words.len()) as u16,
            bss_size: bss,
            symbol_size: (12 * symbols.len()) as u16,
            entry_point: entry,
            unused,
            flag,
        },
        text_words: text_part.words,
        data_words: data_part.words,
        text_reloc: text_part.relocs,
        data_reloc: data_part.relocs,
        symbols,
    })
}

/// The file of what was read of a listing, up to the line of this number.
fn file_of(
    alloc: Global,
    needs_end: bool,
    number: usize,
    draft: FileDraft,
    noting: Noting,
) -> Result<File, ListingFault>
    requires { IsDraft (draft_of draft) }
    ensures says { Says result (file_of needs_end (state_of number draft noting)) }
    ensures no_memory { IfErr result (λ fault. fault ≢ Memory refused) }
{
    if let Some(first) = noting.first {
        return Err(ListingFault::Wrong(Mistakes {
            first,
            others: noting.others,
        }));
    }
    if needs_end && draft.section != Section::Ended {
        return Err(ListingFault::Wrong(Mistakes {
            first: Fault {
                line: number,
                column: 1,
                reason: Reason::NoEnd,
            },
            others: Vec::new(alloc),
        }));
    }
    Ok(finish(draft))
}

fn read_all(alloc: Global, addresses: Addresses, text: &[u8]) -> Result<File, ListingFault>
    ensures says { Says result (read addresses text.now) }
    ensures memory { IfErr result (λ fault.
        fault ≡ Memory refused → ListingMayRunOut addresses text.now) }
{
    if let Some(stray) = first_stray(text) {
        return Err(ListingFault::Wrong(Mistakes {
            first: stray,
            others: Vec::new(alloc),
        }));
    }
    let mut draft = FileDraft::new(alloc, addresses);
    let mut noting = Noting {
        first: None,
        others: Vec::new(alloc),
    };
    match read_lines(alloc, &mut draft, &mut noting, text) {
        Ok(number) => file_of(alloc, has_head(text), number, draft, noting),
        Err(refused) => Err(ListingFault::Memory(refused)),
    }
}

/// Makes the file of a listing. The listing that `write_listing` makes of a file gives that file, whatever is remarked in it. After a
/// mistake reading goes on.
///
/// Errors: `Wrong` with the mistakes of the listing, at most ten; `Memory` if memory runs out for a word, a symbol, or a mistake
/// after the first.
pub fn read_listing(alloc: Global, addresses: Addresses, text: &[u8]) -> Result<File, ListingFault>
    ensures says { Says result (read addresses text.now) }
    ensures memory { IfErr result (λ fault.
        fault ≡ Memory refused → ListingMayRunOut addresses text.now) }
    ensures again { (c : Contents) → IsListed c text.now → IsSound c → Gives result c }
{
    read_all(alloc, addresses, text)
}
