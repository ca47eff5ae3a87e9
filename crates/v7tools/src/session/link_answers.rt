//! The answer to a link.
ghost use Rattle.std.specs.Prelude.{◌≡◌, ◌++◌, codes, decimal, IfErr, IfOk};
ghost use Rattle.aout_core.specs.{Wires.Writes, Refusals.device_fault};
ghost use Rattle.link_out.specs.{Outcomes.report_names, function.Reports.line};
ghost use Rattle.v7tools.specs.{declared.fault.CliFault.TheVariants.WriteFailed, Answers.{link_answer_text, link_status}};
ghost use Rattle.v7tools.specs.FaultTexts.{at_file};

use crate::fault::CliFault;
use crate::fault::wording::says_of;
use aout_core::{DeviceFault, Wire};
use host::Stored;
use itoa::Buffer;
use link_out::Linked;
use std::io::Write;

/// Writes a path, what is said of it, and a newline.
fn put_path_line<W: Write>(path: &str, text: &str, answers: &mut Wire<W>) -> Result<(), DeviceFault>
    ensures { Writes W.contents result answers.old answers.new (line (at_file path.now text.now)) }
{
    says_of(path, text).write(answers)?;
    answers.put(b"\n")
}

/// Writes `linked`, the path and the status, without a newline.
fn put_linked<W: Write>(path: &str, status: u8, answers: &mut Wire<W>) -> Result<(), DeviceFault>
    ensures { Writes W.contents result answers.old answers.new
        (codes "linked " ++ path.now ++ codes " " ++ decimal status) }
{
    answers.put_both(b"linked ", path.as_bytes())?;
    answers.put_both(b" ", Buffer::new().format(status).as_bytes())
}

/// Writes the line of a link whose file is stored.
fn put_linked_line<W: Write>(
    path: &str,
    status: u8,
    answers: &mut Wire<W>,
) -> Result<(), DeviceFault>
    ensures { Writes W.contents result answers.old answers.new
        (line (codes "linked " ++ path.now ++ codes " " ++ decimal status)) }
{
    put_linked(path, status, answers)?;
    answers.put(b"\n")
}

fn put_link_answer<W: Write>(
    linked: &Linked,
    path: &str,
    stored: Stored,
    answers: &mut Wire<W>,
) -> Result<(), DeviceFault>
    ensures { Writes W.contents result answers.old answers.new
        (link_answer_text (report_names linked.now.report) path.now stored) }
{
    match stored {
        Stored::Kept => {
            linked.report.write(answers)?;
            put_linked_line(path, linked.report.status(), answers)
        }
        Stored::NotCreated(_) => put_path_line(path, "cannot create", answers),
        Stored::Failed(_) => put_path_line(path, "write error", answers),
    }
}

/// Writes the answer to a link, once it is known what became of its file: the report and `linked PATH STATUS`, or
/// `PATH: cannot create`, or `PATH: write error`. It returns the status of the link: the report's, or 1 if the
/// file is not stored. It takes no memory.
///
/// Errors: `WriteFailed`, 8, if the wire failed, now or before: a prefix of the answer then went out.
pub fn link_answer<W: Write>(
    linked: &Linked,
    path: &str,
    stored: Stored,
    answers: &mut Wire<W>,
) -> Result<u8, CliFault>
    ensures written { Writes W.contents result answers.old answers.new
        (link_answer_text (report_names linked.now.report) path.now stored) }
    ensures write_failed { IfErr result (λ fault. fault ≡ WriteFailed device_fault) }
    ensures status { IfOk result (λ status.
        status ≡ link_status (report_names linked.now.report) stored) }
{
    put_link_answer(linked, path, stored, answers)?;
    Ok(match stored {
        Stored::Kept => linked.report.status(),
        Stored::NotCreated(_) | Stored::Failed(_) => 1,
    })
}
