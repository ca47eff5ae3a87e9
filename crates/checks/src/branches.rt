//! What is suspicious of branches.
ghost use Rattle.checks.specs.{Branches.suspicious_branch, Found.Finds};

use crate::finding::{FindingKind, Findings};
use crate::leads::is_promised;
use crate::suspect::{Suspect, doubt_text, word_place};
use crate::trust::entered;

/// Adds a branch, if it is reached and its target is suspicious.
pub(crate) fn find_branch(findings: &mut Findings, at: &Suspect<'_>, target: Option<u16>)
    ensures { Finds findings.old findings.new
        (suspicious_branch at.now.lines.evidence at.now.lines.sweep.now at.now.trust
        at.now.start target) }
{
    let Some(target) = target else {
        return;
    };
    if !at.trust.is_reached {
        return;
    }
    let (address, doubt) = (at.address(), doubt_text(at.trust.is_sure));
    let size = 2 * at.lines.sweep.file().text_words().len();
    if usize::from(target) > size {
        at.find(
            findings,
            at.trust.is_sure,
            word_place(at.start),
            FindingKind::BranchOutside,
            format_args!(
                "the branch at {address:06o} leads to {target:06o}, and text lies from 000000 to {size:06o}{doubt}"
            ),
        );
    } else if let Some(start) = entered(&at.lines, usize::from(target / 2)) {
        let is_sure = at.trust.is_sure && is_promised(at.lines.evidence);
        let (start, doubt) = (2 * start, doubt_text(is_sure));
        at.find(
            findings,
            is_sure,
            word_place(at.start),
            FindingKind::BranchWithin,
            format_args!(
                "the branch at {address:06o} leads to {target:06o}, within the instruction at {start:06o}{doubt}"
            ),
        );
    }
}
