//! The plan of a link: what is linked, by which options, and where each segment begins.
ghost use Rattle.std.specs.{Prelude.{◌≡◌, ◌≤◌, None}, List.AllByRecursion};
ghost use Rattle.link_session.specs.{Labelled.objects, Sessions.IsObject};
ghost use Rattle.tool_options.specs.Choices.{option_fault};
ghost use Rattle.link_out.specs.{Layouts.magic_of, internal.Headers.header_of, function.Plans.plan_of, internal.OneProof.objects-prop};

use crate::layout::{Bases, link_bases};
use aout_core::Header;
use link_session::{Entry, Session};
use tool_options::{Keep, Layout, Options};

/// What is linked, by which options, and where each segment begins. Each pass of a link reads it.
#[derive(Drop)]
pub(crate) struct Plan<'a> {
    pub(crate) session: &'a Session,
    /// What the session keeps.
    pub(crate) entries: &'a [Entry],
    pub(crate) options: &'a Options,
    /// Which symbols the options keep.
    pub(crate) keep: Keep,
    pub(crate) bases: Bases,
    ghost entries_of: { entries.now ≡ session.now.entries },
    ghost keep_of: { keep ≡ options.now.keep },
    ghost at: { bases ≡ (plan_of session.now options.now).at },
    ghost text: { bases.text_end ≤ 65535 },
    ghost order: { (bases.data_start ≤ bases.data_end) × (bases.data_end ≤ bases.bss_end) },
    ghost good: { AllByRecursion IsObject (objects session.now.entries) } by { objects-prop (objects session.now.entries) },
    ghost allowed: { option_fault options.now.layout options.now.relocatable options.now.keep ≡ None },
}

fn magic_of(layout: Layout) -> u16
    ensures { result ≡ magic_of layout }
{
    match layout {
        Layout::Plain => 0o407,
        Layout::Pure => 0o410,
        Layout::Split => 0o411,
    }
}

impl<'a> Plan<'a> {
    /// The plan of the link of what a session keeps.
    pub(crate) fn of(session: &'a Session, options: &'a Options) -> Plan<'a>
        ensures session { result.session.now ≡ session.now }
        ensures options { result.options.now ≡ options.now }
        ensures at { result.bases ≡ (plan_of session.now options.now).at }
    {
        Plan {
            session,
            entries: session.entries(),
            options,
            keep: options.keep(),
            bases: link_bases(session, options),
        }
    }

    /// The header of a file with so many rows in its table.
    pub(crate) fn header(&self, rows: usize, entry: u16) -> Header
        requires short { self.now.bases.bss_end ≤ 65535 }
        requires rows { rows ≤ 5461 }
        ensures { result ≡ header_of self.now.options.now self.now.bases rows entry }
    {
        let bases = &self.bases;
        Header {
            magic: magic_of(self.options.layout()),
            text_size: bases.text_end as u16,
            data_size: (bases.data_end - bases.data_start) as u16,
            bss_size: (bases.bss_end - bases.data_end) as u16,
            symbol_size: (12 * rows) as u16,
            entry_point: entry,
            unused: 0,
            flag: if self.options.is_relocatable() { 0 } else { 1 },
        }
    }
}
