//! The texts of faults of libraries, as these show them. Those of `CliFault` are proved.
use crate::fixtures::{device_fault, has_text};
use aout_core::{ObjectFault, ReadFault, Refused};
use link_out::{LinkFault, OptionFault, RunFault};
use link_session::AddFault;
use std::alloc::AllocError;
use symtools::ToolFault;

#[test]
fn fault_texts(rt: HostRuntime) {
    let refused = Refused::from(AllocError);
    assert!(rt; has_text(refused, "no memory"));
    assert!(rt; device_fault().is_some_and(|fault| has_text(fault, "device fault")));
    assert!(rt; has_text(ReadFault::OddSize, "odd size"));
    assert!(rt; has_text(ObjectFault::NotAnObject, "not an object"));
    assert!(rt; has_text(ObjectFault::BadRelocation(1), "bad relocation at word 1"));
    let number = ObjectFault::BadSymbolNumber(2);
    assert!(rt; has_text(number, "bad symbol number at word 2"));
    assert!(rt; has_text(ToolFault::Memory(refused), "no memory"));
    assert!(rt;
        device_fault().is_some_and(|fault| has_text(ToolFault::from(fault), "write error"))
    );
    assert!(rt; has_text(AddFault::BssFull, "bss full"));
    assert!(rt; has_text(LinkFault::DoesNotFit, "does not fit"));
    assert!(rt; has_text(RunFault::Memory(refused), "no memory"));
    assert!(rt; has_text(RunFault::Link(LinkFault::DoesNotFit), "does not fit"));
    assert!(rt; has_text(OptionFault::RelocStrip, "relocation without symbols"));
    assert!(rt; has_text(OptionFault::RelocLayout, "relocation in another layout"));
}
