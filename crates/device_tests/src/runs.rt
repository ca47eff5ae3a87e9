//! Edits in one run: the replies to them, and the link of what they leave.
use crate::fixtures::{file_of, plain, sized};
use aout_core::samples::{C_O, D_O, TestReader};
use aout_core::{Object, Wire, read_file};
use link_out::{Edit, Keep, Layout, LinkFault, Options, Reply, RunFault, run};
use link_session::{AddFault, Forced};
use std::alloc::Global;
use std::test::Fail;

/// The addition of the object of these bytes, if there is memory for it.
fn adding(alloc: Global, label: &str, bytes: &[u8]) -> Option<Edit> {
    let label = String::from_str(alloc, label).ok()?;
    let file = read_file(alloc, &mut Wire::new(TestReader::whole(bytes))).ok()?;
    Some(Edit::Add(label, Object::from_file(file).ok()?))
}

/// `c.o` is added and withdrawn, and then there is nothing to withdraw. `d.o` is left.
fn leaving_the_second(alloc: Global) -> Option<Vec<Edit>> {
    let first = adding(alloc, "c.o", &C_O)?;
    let second = adding(alloc, "d.o", &D_O)?;
    Vec::from_array(alloc, [first, Edit::Withdraw, Edit::Withdraw, second]).ok()
}

fn is_of_the_second(replies: &[Reply]) -> bool {
    match replies {
        [
            Reply::Added,
            Reply::Withdrew(label),
            Reply::Nothing,
            Reply::Added,
        ] => { label.as_str() == "c.o" }
        _ => false,
    }
}

/// Whether this is the run that leaves `d.o`.
fn leaves_the_second(alloc: Global, edits: Vec<Edit>) -> Result<bool, RunFault> {
    let (replies, linked) = run(alloc, &Forced::none(), edits, &plain(Keep::All))?;
    Ok(
        is_of_the_second(&replies)
            && linked.report.status() == 0
            && linked.file.text_words() == [0o240, 0o207].as_slice()
            && linked.file.symbols().len() == 1,
    )
}

#[test]
fn runs_of_edits(rt: HostRuntime) -> Result<(), Fail> {
    let edits = leaving_the_second(rt.alloc()).ok_or("no edits")?;
    assert!(rt; leaves_the_second(rt.alloc(), edits)?);
    Ok(())
}

/// Text of 65,534 bytes, then data of 2 bytes, and then text of 2 bytes.
fn too_large(alloc: Global) -> Option<Vec<Edit>> {
    let data = file_of(alloc, [0o407, 0, 2, 0, 0, 0, 0, 0], &[0, 0], &[]).ok()?;
    let first = adding(alloc, "large.o", &sized(alloc, 65_534).ok()?)?;
    let second = adding(alloc, "data.o", &data)?;
    let third = adding(alloc, "text.o", &sized(alloc, 2).ok()?)?;
    Vec::from_array(alloc, [first, second, third]).ok()
}

fn are_but_the_last(replies: &[Reply]) -> bool {
    matches!(
        replies,
        [
            Reply::Added,
            Reply::Added,
            Reply::Refused(AddFault::TextFull)
        ]
    )
}

#[test]
fn runs_of_edits_that_do_not_fit(rt: HostRuntime) -> Result<(), Fail> {
    let alloc = rt.alloc();
    let edits = too_large(alloc).ok_or("no edits")?;
    let refusal = run(alloc, &Forced::none(), edits, &plain(Keep::All)).err();
    assert!(rt; matches!(refusal, Some(RunFault::Link(LinkFault::DoesNotFit))));
    let split = Options::new(Layout::Split, false, Keep::All, None)?;
    let edits = too_large(alloc).ok_or("no edits")?;
    let (replies, linked) = run(alloc, &Forced::none(), edits, &split)?;
    assert!(rt; are_but_the_last(&replies) && linked.report.status() == 0);
    Ok(())
}

/// Whichever request is refused, the run is as it should be, or ends for want of memory.
#[test]
fn memory_refused_running(rt: HostRuntime) -> Result<(), Fail> {
    let Some(edits) = leaving_the_second(rt.alloc()) else {
        return Ok(());
    };
    match leaves_the_second(rt.alloc(), edits) {
        Ok(is_right) => assert!(rt; is_right),
        Err(fault) => assert!(rt; matches!(fault, RunFault::Memory(_))),
    }
    Ok(())
}
