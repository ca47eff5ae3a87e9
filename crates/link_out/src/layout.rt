//! Where the segments of a link lie.
ghost use Rattle.std.specs.Prelude.{◌≡◌, ◌≤◌, ◌*◌};
ghost use Rattle.link_session.specs.{Labelled.objects, Starts.total, Undo.image_of};
ghost use Rattle.aout_core.specs.declared.symbol.Segment.TheVariants.{TextSeg, DataSeg};
ghost use Rattle.link_out.specs.{Layouts.{bases, data_base}, function.Plans.{common_size, commons_laid, plan_of}};
ghost use Rattle.link_out.specs.internal.InOrder.{mentions_of, commons_size_in};

use aout_core::next_boundary;
use link_session::{Session, State};
use std::marker::Model;
use tool_options::{Layout, Options};

/// The bounds of the segments of a link, in bytes. Text starts at 0, and commons at the end of data. An end may pass
/// 65,535. (a.out(5) and ld(1); commons: own choice)
#[derive(Clone, Copy, Debug)]
pub struct Bases {
    pub text_end: u64,
    pub data_start: u64,
    pub data_end: u64,
    pub bss_start: u64,
    pub bss_end: u64,
}

impl Model for Bases {
    ghost use Rattle.link_out.specs.Layouts as spec;

    ghost Value = { spec.Bases };

    ghost view = { λ a. record { text_end = a.text_end; data_start = a.data_start; data_end = a.data_end; bss_start = a.bss_start; bss_end = a.bss_end } };

    ghost inverse = { λ v. record { text_end = v.text_end; data_start = v.data_start; data_end = v.data_end; bss_start = v.bss_start; bss_end = v.bss_end } };
}

/// Where data starts after so many bytes of text.
fn data_base(layout: Layout, text: u16) -> u64
    ensures value { result ≡ data_base layout text }
    ensures small { result ≤ 73728 }
{
    match layout {
        Layout::Plain => text as u64,
        Layout::Pure => next_boundary(text as usize) as u64,
        Layout::Split => 0,
    }
}

/// The bounds for so many bytes of text, data, commons and bss.
fn segment_bases(
    layout: Layout,
    text_size: u16,
    data_size: u16,
    commons: u64,
    bss_size: u16,
) -> Bases
    requires { commons ≤ 65535 * 65536 }
    ensures { result ≡ bases layout text_size data_size commons bss_size }
{
    let data_start = data_base(layout, text_size);
    let data_end = data_start + data_size as u64;
    let bss_start = data_end + commons;
    Bases {
        text_end: text_size as u64,
        data_start,
        data_end,
        bss_start,
        bss_end: bss_start + bss_size as u64,
    }
}

/// The bytes of a common, rounded up to even; a definition takes none.
pub(crate) fn common_size(state: State) -> u64
    ensures value { result ≡ common_size state }
    ensures small { result ≤ 65536 }
{
    match state {
        State::Defined(_, _) => 0,
        State::Wanted(size) => size as u64 + size as u64 % 2,
    }
}

/// The bytes of all commons of a session.
fn commons_total(session: &Session) -> u64
    ensures value { result ≡ commons_size_in (image_of session.now).externals }
    ensures small { result ≤ 65535 * 65536 }
{
    let mut total = 0;
    for (_, state) in session.externals() {
        total += common_size(state);
    }
    total
}

/// The bytes of commons that are laid out.
pub(crate) fn commons_laid(session: &Session, options: &Options) -> u64
    ensures value { result ≡ commons_laid options.now (mentions_of session.now) }
    ensures small { result ≤ 65535 * 65536 }
{
    if options.lays_commons() {
        commons_total(session)
    } else {
        0
    }
}

/// The bytes of the merged text.
pub(crate) fn text_size(session: &Session) -> u16
    ensures { result ≡ total TextSeg (objects session.now.entries) }
{
    let cells = session.text_cells();
    (2 * cells.len()) as u16
}

/// The bytes of the merged data.
pub(crate) fn data_size(session: &Session) -> u16
    ensures { result ≡ total DataSeg (objects session.now.entries) }
{
    let cells = session.data_cells();
    (2 * cells.len()) as u16
}

/// Where the segments of a session's link lie, whether `finish` would link it or not: it refuses what ends after
/// 65,535. (ld(1))
pub fn link_bases(session: &Session, options: &Options) -> Bases
    ensures value { result ≡ (plan_of session.now options.now).at }
    ensures text { result.text_end ≤ 65535 }
{
    segment_bases(
        options.layout(),
        text_size(session),
        data_size(session),
        commons_laid(session, options),
        session.bss_total(),
    )
}
