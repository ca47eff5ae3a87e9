//! What is wrong and odd in a file, as records.
ghost use Rattle.std.specs.Prelude.{◌≡◌, ◌∷◌, ◌<◌, ◌^◌, [], IfOk, IfErr, None, Some, true};
ghost use Rattle.aout_core.specs.{Refusals.refused, WellFormed.first_object_fault};
ghost use Rattle.checks.specs.{Wrong.{wrong_bytes, wrong_in}, Suspicions.all_odd, declared.evidence.Evidence.TheVariants.Flow};
ghost use Rattle.libv7.specs.RemarkAnswers.{IsRemarked, IsRemarkedBy, at_word, located_in, records_from, remarked_by, remarks_in, status_by, texts_of};
ghost use Rattle.libv7.specs.declared.cause.Cause.TheVariants.{Memory};

use crate::cause::Cause;
use aout_core::{File, Header, ReadFault, decode_file, object_fault};
use checks::{Evidence, FilePlaces, Finding, all_odd_of, wrong_bytes, wrong_in};
use disassemblies::Sweep;
use std::alloc::{AllocError, Global};

/// A remark on a file.
#[repr(C)]
#[derive(Clone, Copy, Debug, PartialEq, Eq)]
pub struct RemarkRecord {
    /// The byte of the file, from 0.
    pub place: usize,
    /// Where its text begins among all texts, from 0.
    pub text: usize,
    pub text_size: usize,
    /// What is remarked: 1 to 7 are wrong, 8 to 20, 30 and 31 odd, and the others suspicious.
    pub kind: u32,
    /// The part that the byte is in, as a `LongPart` has its number, or that its relocation is of; else 0.
    pub part: u32,
    /// The index of the word, text before data, from 0, or the number of the symbol; else 0.
    pub word: u32,
}

/// A part of a file, and a word or a symbol in it.
#[derive(Clone, Copy)]
struct Located {
    part: u32,
    word: u32,
}

/// All remarks on a file.
#[derive(Debug, Drop)]
pub struct Remarks {
    /// 1 if something is wrong, else 0.
    pub status: u8,
    /// The texts of the records, one after another.
    pub texts: Vec<u8>,
    pub records: Vec<RemarkRecord>,
}

fn at_word(header: &Header, index: usize) -> Located
    requires { index < 2 ^ 20 }
    ensures { result ≡ at_word header.now index }
{
    let is_text = index < usize::from(header.text_size) / 2;
    Located {
        part: if is_text { 1 } else { 2 },
        word: index as u32,
    }
}

/// Where a byte of a file is: in text, data or their relocation, in the symbol table, or elsewhere, as of bytes that do not begin with a
/// file.
fn located_in(header: &Option<Header>, place: usize) -> Located
    ensures { result ≡ located_in header.now place }
{
    let Some(header) = header else {
        return Located { part: 0, word: 0 };
    };
    let places = FilePlaces::of(header);
    if place < places.text || places.end <= place {
        return Located { part: 0, word: 0 };
    }
    if places.symbols <= place {
        return Located {
            part: 4,
            word: ((place - places.symbols) / 12) as u32,
        };
    }
    if places.relocation <= place {
        return at_word(header, (place - places.relocation) / 2);
    }
    at_word(header, (place - places.text) / 2)
}

/// The record of a finding whose text begins at this place of all texts.
fn record_of(header: &Option<Header>, finding: &Finding, text: usize) -> RemarkRecord
    ensures { result ∷ [] ≡ records_from header.now text (finding.now ∷ []) }
{
    let at = located_in(header, finding.place);
    RemarkRecord {
        place: finding.place,
        text,
        text_size: finding.text.len(),
        kind: finding.kind.number(),
        part: at.part,
        word: at.word,
    }
}

/// Appends the records of findings to no records, and their texts to no texts.
fn put_records(
    texts: &mut Vec<u8>,
    records: &mut Vec<RemarkRecord>,
    header: &Option<Header>,
    findings: &[Finding],
) -> Result<(), AllocError>
    requires texts { texts.old.items ≡ [] }
    requires records { records.old.items ≡ [] }
    ensures texts { IfOk result (λ _. texts.new.items ≡ texts_of findings.now) }
    ensures records { IfOk result (λ _.
        records.new.items ≡ records_from header.now 0 findings.now) }
{
    for finding in findings {
        records.push(record_of(header, finding, texts.len()))?;
        texts.extend_from_slice(&finding.text)?;
    }
    Ok(())
}

/// 1 if there is a finding.
fn status_by(wrong: &[Finding]) -> u8
    ensures { result ≡ status_by wrong.now }
{
    match wrong {
        [] => 0,
        [_, ..] => 1,
    }
}

fn remarks_by(
    alloc: Global,
    header: &Option<Header>,
    wrong: Vec<Finding>,
    odd: Vec<Finding>,
) -> Result<Remarks, AllocError>
    ensures { IfOk result (λ x.
        remarks_in x ≡ remarked_by header.now wrong.items odd.items) }
{
    let status = status_by(&wrong);
    let mut found = wrong;
    let mut rest = odd;
    found.append(&mut rest)?;
    let mut texts = Vec::new(alloc);
    let mut records = Vec::new(alloc);
    put_records(&mut texts, &mut records, header, &found)?;
    Ok(Remarks {
        status,
        texts,
        records,
    })
}

#[tactic(auto, using(crate::proofs::RemarkLemmas::by_findings))]
fn file_remarks(alloc: Global, bytes: &[u8], file: &File) -> Result<Remarks, AllocError>
    ensures { IfOk result (λ x. IsRemarkedBy (Some file.now.header)
        (wrong_in (first_object_fault file.now) file.now)
        (all_odd Flow true bytes.now file.now) (remarks_in x)) }
{
    let wrong = wrong_in(alloc, file, object_fault(file))?;
    let sweep = Sweep::new(alloc, file)?;
    let odd = all_odd_of(alloc, Evidence::Flow, bytes, &sweep, true)?;
    remarks_by(alloc, &Some(*file.header()), wrong, odd)
}

/// The remarks on bytes that do not begin with a file.
#[tactic(auto, using(crate::proofs::RemarkLemmas::by_findings))]
fn refused_remarks(alloc: Global, bytes: &[u8], fault: ReadFault) -> Result<Remarks, AllocError>
    ensures { IfOk result (λ x. IsRemarkedBy None (wrong_bytes fault bytes.now) [] (remarks_in x)) }
{
    let wrong = wrong_bytes(alloc, bytes, fault)?;
    remarks_by(alloc, &None, wrong, Vec::new(alloc))
}

/// What is wrong and odd in the file that the bytes begin with, or what is wrong with bytes that do not begin with a file, as
/// v7-explain(1) tells it. (a.out(5), own choice)
///
/// An error: `Memory`, 50, if memory runs out.
#[tactic(auto, using(crate::proofs::RemarkLemmas::by_decoding))]
pub fn remarks_of(alloc: Global, bytes: &[u8]) -> Result<Remarks, Cause>
    ensures ok { IfOk result (λ x. IsRemarked bytes.now (remarks_in x)) }
    ensures err { IfErr result (λ cause. cause ≡ Memory refused) }
{
    match decode_file(alloc, bytes)? {
        Ok(file) => Ok(file_remarks(alloc, bytes, &file)?),
        Err(fault) => Ok(refused_remarks(alloc, bytes, fault)?),
    }
}
