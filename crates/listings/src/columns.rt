//! Lines of a text, and columns of a line.
ghost use Rattle.std.specs.Prelude.{◌≡◌, ◌<◌, ◌≤◌, [], length};
ghost use Rattle.listings.specs.internal.Rows.{row_in};
ghost use Rattle.listings.specs.Columns.{row_of, first_line, other_lines, skip, column, after_column, from_column, column_place};
ghost use Rattle.listings.specs.Columns.{begins_with_newline, is_stray, first_stray, is_said, says_something};

use crate::fault::{Fault, Reason};

fn begins_with_newline(text: &[u8]) -> bool
    ensures { result ≡ begins_with_newline text.now }
{
    match text.first() {
        Some(byte) => *byte == b'\n',
        None => false,
    }
}

/// Whether no listing has a byte with these after it.
fn is_stray(byte: u8, rest: &[u8]) -> bool
    ensures { result ≡ is_stray byte rest.now }
{
    byte < b' ' && byte != b'\t' && !(byte == b'\r' && begins_with_newline(rest))
}

/// The first byte of a text that no listing has.
pub(crate) fn first_stray(text: &[u8]) -> Option<Fault>
    ensures { result ≡ first_stray text.now }
{
    let mut line = 1usize;
    let mut column = 1usize;
    for (index, byte) in text.iter().enumerate() {
        if *byte == b'\n' {
            line += 1;
            column = 1;
        } else if is_stray(*byte, &text[index + 1..]) {
            return Some(Fault {
                line,
                column,
                reason: Reason::StrayByte,
            });
        } else {
            column += 1;
        }
    }
    None
}

/// The first line of a text without its newline, and the other lines.
pub(crate) fn cut_line(text: &[u8]) -> (&[u8], &[u8])
    requires { 0 < length text.now }
    ensures line { result.0.now ≡ first_line text.now }
    ensures rest { result.1.now ≡ other_lines text.now }
    ensures shorter { length result.1.now < length text.now }
{
    for (index, byte) in text.iter().enumerate() {
        if *byte == b'\n' {
            return (&text[..index], &text[index + 1..]);
        }
    }
    (text, &[])
}

/// Without the blanks at the front.
pub(crate) fn skip(line: &[u8]) -> &[u8]
    ensures value { result.now ≡ skip line.now }
    ensures bound { length result.now ≤ length line.now }
{
    for (index, byte) in line.iter().enumerate() {
        if *byte > b' ' {
            return &line[index..];
        }
    }
    &[]
}

/// Up to the first blank, and from there on.
pub(crate) fn cut_column(line: &[u8]) -> (&[u8], &[u8])
    ensures column { result.0.now ≡ column line.now }
    ensures after_column { result.1.now ≡ after_column line.now }
    ensures bound { length result.1.now ≤ length line.now }
{
    for (index, byte) in line.iter().enumerate() {
        if *byte <= b' ' {
            return line.split_at(index);
        }
    }
    (line, &[])
}

/// What is left of a line from a column on.
fn from_column(number: usize, line: &[u8]) -> &[u8]
    ensures value { result.now ≡ from_column number line.now }
    ensures bound { length result.now ≤ length line.now }
{
    let rest = skip(line);
    if number == 0 {
        return rest;
    }
    let rest = skip(cut_column(rest).1);
    if number == 1 {
        return rest;
    }
    let rest = skip(cut_column(rest).1);
    if number == 2 {
        return rest;
    }
    skip(cut_column(rest).1)
}

/// Where a column begins, counted from 1.
pub(crate) fn column_place(number: usize, line: &[u8]) -> usize
    ensures { result ≡ column_place number line.now }
{
    1 + (line.len() - from_column(number, line).len())
}

/// The first four columns of a line; one that is not there is empty.
#[derive(Clone, Copy)]
pub(crate) struct Columns<'a> {
    pub(crate) first: &'a [u8],
    pub(crate) second: &'a [u8],
    pub(crate) third: &'a [u8],
    pub(crate) fourth: &'a [u8],
}

pub(crate) fn columns_of(line: &[u8]) -> Columns<'_>
    ensures { row_in result ≡ row_of line.now }
{
    let (first, rest) = cut_column(skip(line));
    let (second, rest) = cut_column(skip(rest));
    let (third, rest) = cut_column(skip(rest));
    let (fourth, _) = cut_column(skip(rest));
    Columns {
        first,
        second,
        third,
        fourth,
    }
}

/// Whether a line with this first column is neither blank nor a comment.
fn is_said(first: &[u8]) -> bool
    ensures { result ≡ is_said first.now }
{
    match first.first() {
        Some(byte) => *byte != b'/',
        None => false,
    }
}

/// Whether a listing has a line that is neither blank nor a comment.
#[tactic(auto, using(crate::proofs::ReadLemmas::said_here))]
pub fn says_something(text: &[u8]) -> bool
    ensures { result ≡ says_something text.now }
{
    let mut rest = text;
    while !rest.is_empty() {
        let (line, others) = cut_line(rest);
        if is_said(columns_of(line).first) {
            return true;
        }
        rest = others;
    }
    false
}
