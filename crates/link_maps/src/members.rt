//! The objects of a link: those that a session takes, and those that are left if it refuses one.
ghost use Rattle.std.specs.Prelude.{◌≡◌, [], None, IfOk, IsOk, OnOk};
ghost use Rattle.link_session.specs.Sessions.{labelled, nothing_kept};
ghost use Rattle.link_maps.specs.{Members.{all_of, left_of}, Taking.{split_of, split_with, with_object}};

use aout_core::{File, Object};
use link_session::{AddFault, Forced, Session};
use std::alloc::{AllocError, Global};
use std::marker::Model;

/// An object that a session did not take, with its label. Contracts see the bytes of the label.
#[derive(Debug, Drop)]
pub struct Left {
    pub label: String,
    pub object: Object,
}

impl Model for Left {
    ghost use Rattle.link_session.specs.Labelled.{Labelled};

    ghost Value = { Labelled };

    ghost use Rattle.std.specs.Prelude.{string_bytes};

    ghost view = { λ a. record { label = string_bytes a.label; object = a.object } };
}

/// Why a session refused an object, with that object and all after it.
#[derive(Debug, Drop)]
pub struct Refused {
    pub cause: AddFault,
    pub left: Vec<Left>,
}

/// The objects of a link, in order.
#[derive(Drop)]
pub struct Objects {
    pub session: Session,
    pub refused: Option<Refused>,
}

/// Adds an object to a session; if that refuses it, returns why, with the object. An error: out of memory.
fn add(
    alloc: Global,
    session: &mut Session,
    label: String,
    object: Object,
) -> Result<Option<Refused>, AllocError>
    ensures taken { IfOk result (λ refused. split_with session.new.entries refused
        ≡ with_object session.old.forced (split_with session.old.entries None)
        (labelled label object)) }
    ensures forced { session.new.forced ≡ session.old.forced }
{
    let Err(refused) = session.add(label, object) else {
        return Ok(None);
    };
    let cause = refused.cause;
    if let AddFault::Memory(refused) = cause {
        return Err(AllocError::from(refused));
    }
    let mut left = Vec::new(alloc);
    left.push(Left {
        label: refused.label,
        object: refused.object,
    })?;
    Ok(Some(Refused { cause, left }))
}

impl Objects {
    /// No objects, and these forced names.
    ///
    /// An error: out of memory.
    pub fn new(alloc: Global, forced: &Forced) -> Result<Objects, AllocError>
        ensures session { IfOk result (λ objects. objects.session ≡ nothing_kept forced.now) }
        ensures refused { IfOk result (λ objects. objects.refused ≡ None) }
        ensures none { forced.now ≡ [] → IsOk result }
    {
        Ok(Objects {
            session: Session::with_forced(alloc, forced)?,
            refused: None,
        })
    }

    /// Takes the next object. After one that the session refuses, all are left.
    ///
    /// An error: out of memory.
    pub fn take(&mut self, alloc: Global, label: String, object: Object) -> Result<(), AllocError>
        ensures taken { OnOk result (split_of self.new
            ≡ with_object self.old.session.forced (split_of self.old) (labelled label object)) }
        ensures forced { self.new.session.forced ≡ self.old.session.forced }
    {
        match &mut self.refused {
            Some(refused) => {
                refused.left.push(Left { label, object })?;
                Ok(())
            }
            None => {
                self.refused = add(alloc, &mut self.session, label, object)?;
                Ok(())
            }
        }
    }

    /// The objects that are left, the one that was refused first.
    fn left(&self) -> &[Left]
        ensures { result.now ≡ left_of self.now.refused }
    {
        match &self.refused {
            Some(refused) => &refused.left,
            None => &[],
        }
    }

    /// All objects, those that the session took before those that are left.
    ///
    /// An error: out of memory.
    pub fn all(&self, alloc: Global) -> Result<Vec<Listed<'_>>, AllocError>
        ensures { IfOk result (λ all. all.items ≡ all_of self.now) }
    {
        let mut all = Vec::new(alloc);
        let entries = self.session.entries();
        for entry in entries {
            all.push(Listed {
                label: entry.label(),
                file: entry.object().file(),
            })?;
        }
        let left = self.left();
        for one in left {
            all.push(Listed {
                label: one.label.as_str(),
                file: one.object.file(),
            })?;
        }
        Ok(all)
    }
}

/// An object of a link, taken or left, and its label. Contracts see the bytes of the label.
#[derive(Debug, Drop)]
pub struct Listed<'a> {
    pub label: &'a str,
    pub file: &'a File,
}

impl<'a> Model for Listed<'a> {
    ghost use Rattle.link_session.specs.Labelled.{Labelled};

    ghost Value = { Labelled };

    ghost view = { λ l. record { label = l.label.now; object = l.file.now } };
}
