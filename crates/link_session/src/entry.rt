//! The objects of a session, and why one is refused.
ghost use Rattle.std.specs.Prelude.{◌≡◌};

use aout_core::{Object, Refused};
use std::marker::Model;
use thiserror::Error;

/// An object of a session and the label that it was added with. Contracts see the bytes of the label.
#[derive(Debug, Drop)]
pub struct Entry {
    label: String,
    object: Object,
}

impl Model for Entry {
    ghost use Rattle.link_session.specs.Labelled.{Labelled};

    ghost Value = { Labelled };

    ghost use Rattle.std.specs.Prelude.{string_bytes};

    ghost view = { λ a. record { label = string_bytes a.label; object = a.object } };
}

impl Entry {
    ghost use Rattle.link_session.specs.Sessions.{labelled};

    pub(crate) fn new(label: String, object: Object) -> Entry
        ensures { result ≡ labelled label object }
    {
        Entry { label, object }
    }

    /// The label that the object was added with.
    pub fn label(&self) -> &str
        ensures { result.now ≡ self.now.label }
    {
        &self.label
    }

    /// The object.
    pub fn object(&self) -> &Object
        ensures { result.now ≡ self.now.object }
    {
        &self.object
    }

    pub(crate) fn into_parts(self) -> (String, Object)
        ensures { labelled result.0 result.1 ≡ self }
    {
        let Entry { label, object } = self;
        (label, object)
    }
}

/// Why an object was not added: the first that applies.
#[derive(Clone, Copy, Debug, PartialEq, Eq, Error)]
#[error("{}", self.text())]
pub enum AddFault {
    /// 1: the text would pass 65,534 bytes in all.
    TextFull,
    /// 2: the data would pass 65,534 bytes in all.
    DataFull,
    /// 3: the bss would pass 65,534 bytes in all.
    BssFull,
    /// 4: there would be more than 65,535 external names, forced names counted.
    NamesFull,
    /// 5: memory ran out for the object's cells, names and marks.
    Memory(Refused),
}

impl AddFault {
    ghost use Rattle.std.specs.Prelude.{◌≡◌};
    ghost use Rattle.link_session.specs.FaultTexts.{add_text};

    /// What is said of the object.
    pub fn text(self) -> &'static str
        ensures { result.now ≡ add_text self }
    {
        match self {
            AddFault::TextFull => "text full",
            AddFault::DataFull => "data full",
            AddFault::BssFull => "bss full",
            AddFault::NamesFull => "names full",
            AddFault::Memory(_) => "no memory",
        }
    }
}

/// An object that was not added, handed back.
#[derive(Debug, Drop)]
pub struct AddRefused {
    pub cause: AddFault,
    /// The label and the object as they were handed in.
    pub label: String,
    pub object: Object,
}
