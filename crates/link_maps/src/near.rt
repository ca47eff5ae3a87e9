//! The words that may reach a symbol: they lead beyond a label, and to no label.
ghost use Rattle.std.specs.Prelude.{◌≡◌, IfOk};
ghost use Rattle.link_maps.specs.Leads.{is_own, near_among, near_of};

use crate::labels::Labels;
use crate::leads::{Aim, Lead};
use aout_core::{Part, Segment};
use std::alloc::{AllocError, Global};

/// Whether a word of text is itself in what begins at an address of text.
fn is_own(labels: &Labels<'_>, lead: &Lead, segment: Segment, start: u16) -> bool
    ensures { result ≡ is_own labels.now.names.symbols.now lead.now.part lead.now.offset segment start }
{
    match (lead.part, segment) {
        (Part::Text, Segment::TextSeg) => match labels.before(segment, lead.offset) {
            Some(own) => lead.offset.saturating_sub(own.offset) == start,
            None => false,
        },
        _ => false,
    }
}

/// A word that leads beyond a label, as one that leads to the label; none if it leads to the label itself, or if it is in the text after it.
pub(crate) fn near_of(labels: &Labels<'_>, lead: &Lead) -> Option<Lead>
    ensures { result ≡ near_of labels.now.names.symbols.now lead.now.aim lead.now }
{
    let Aim::Addressed(segment, address) = lead.aim else {
        return None;
    };
    let label = labels.before(segment, address)?;
    let start = address.saturating_sub(label.offset);
    if label.offset == 0 || is_own(labels, lead, segment, start) {
        return None;
    }
    Some(Lead {
        aim: Aim::Addressed(segment, start),
        inside: label.offset,
        ..*lead
    })
}

/// Those of these words that lead beyond a label, in their order. An error: out of memory.
pub(crate) fn near_in(
    alloc: Global,
    labels: &Labels<'_>,
    leads: &[Lead],
) -> Result<Vec<Lead>, AllocError>
    ensures { IfOk result (λ found. found.items ≡ near_among labels.now.names.symbols.now leads.now) }
{
    let mut found = Vec::new(alloc);
    for lead in leads {
        if let Some(near) = near_of(labels, lead) {
            found.push(near)?;
        }
    }
    Ok(found)
}
