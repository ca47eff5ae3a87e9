//! The session: an incremental link of a list of objects, from which the object added last can be taken out again.
ghost use Rattle.std.specs.Prelude.{◌≡◌, ◌*◌, ◌≤◌, ◌<◌, ◌++◌, ◌∷◌, [], None, Some, length, map, replicate, position, slice_get, bytes_eq};
ghost use Rattle.std.specs.{Prelude.{IsOk, IfOk, IfErr, OnOk, OnErr, IfSome, IsNone}, List.AllByRecursion, Map.keys_of};
ghost use Rattle.indexmap.specs.IndexMap.{spare};
ghost use Rattle.tool_options.specs.ForcedNames.{AreDifferent};
ghost use Rattle.aout_core.specs.declared.symbol.Segment.TheVariants.{TextSeg, DataSeg};
ghost use Rattle.link_session.specs.{Image.GivesInOrder, Labelled.objects, Mentions.{externals, forced_mention}};
ghost use Rattle.link_session.specs.{Limits.{limit_passed, refusal}, Starts.total, Undo.{image_of, IsJournal}};
ghost use Rattle.link_session.specs.internal.Additions.{with_mentions};
ghost use Rattle.link_session.specs.Sessions.{nothing_kept, labelled, newest, Adds, Withdraws, IsCause, IsObject};

use crate::cell::Cell;
use crate::chain::{Link, grow_heads};
use crate::entry::{AddFault, AddRefused, Entry};
use crate::externals::ExternalStates;
use crate::join::take_in;
use crate::limits::limit_passed;
use crate::mark::Mark;
use crate::mention::mention;
use crate::merged::{Externals, Merged, Sizes};
use crate::state::State;
use crate::undo::undo;
use aout_core::{Name, Object, Refused};
use std::alloc::{AllocError, Global};
use std::marker::Model;
use tool_options::Forced;

/// What the addition of one object overwrote, and the sizes of the image before it.
#[derive(Drop)]
pub(crate) struct UndoRecord {
    pub(crate) marks: Vec<Mark>,
    pub(crate) sizes: Sizes,
}

/// An incremental link: the forced names of `-u`, a list of objects, and the merged image of all. In the image names are
/// resolved, and no address is chosen yet. A journal holds what each addition overwrote, so that the object added last
/// can be taken out again. Contracts see the forced names, the objects and the journal: the image is a function of
/// these. (ld(1); the journal is an own choice)
#[derive(Drop)]
pub struct Session {
    forced: Forced,
    entries: Vec<Entry>,
    undo_records: Vec<UndoRecord>,
    image: Merged,
    alloc: Global,
}

impl Model for Session {
    ghost use Rattle.link_session.specs.Undo.{Kept};

    ghost Value = { Kept };

    ghost use Rattle.std.specs.Prelude.{map};
    ghost use Rattle.link_session.specs.{internal.Fields.{image_in, threads_in, IsSession}, Undo.marks_in};

    ghost view = { λ s. record { forced = s.forced; entries = s.entries.items; journal = map marks_in s.undo_records.items } };

    ghost invariant = { λ s. IsSession s.forced s.entries.items s.undo_records.items (image_in s.image) (threads_in s.image) };
}

/// Mentions the forced names. There is space for them.
fn force_names(externals: &mut Externals, names: &[Name])
    requires { length names.now ≤ spare externals.old }
    ensures { externals.new.entries
        ≡ with_mentions externals.old.entries (map forced_mention names.now) }
{
    for name in names {
        mention(externals, *name, State::Wanted(0));
    }
}

/// Enters the forced names into an image that has no names: each is mentioned, and no cell waits for it.
fn enter_forced(
    externals: &mut Externals,
    heads: &mut Vec<Link>,
    names: &[Name],
) -> Result<(), AllocError>
    requires no_names { externals.old.entries ≡ [] }
    requires no_heads { heads.old.items ≡ [] }
    ensures names { OnOk result
        (externals.new.entries ≡ with_mentions [] (map forced_mention names.now)) }
    ensures heads { OnOk result (heads.new.items ≡ replicate (length externals.new.entries) None) }
    ensures none { names.now ≡ [] → IsOk result }
{
    externals.reserve(names.len())?;
    heads.reserve(names.len())?;
    force_names(externals, names);
    grow_heads(heads, externals.len());
    Ok(())
}

impl Session {
    /// A session of no objects and no forced names.
    pub fn new(alloc: Global) -> Session
        ensures { result ≡ nothing_kept [] }
    {
        Session {
            forced: Forced::none(),
            entries: Vec::new(alloc),
            undo_records: Vec::new(alloc),
            image: Merged::new(alloc),
            alloc,
        }
    }

    /// A session of no objects, whose first externals are the forced names, each wanted at size 0. (ld(1), the option
    /// `-u`)
    ///
    /// Errors: `Refused`, if memory runs out for the names.
    pub fn with_forced(alloc: Global, forced: &Forced) -> Result<Session, Refused>
        ensures kept { IfOk result (λ session. session ≡ nothing_kept forced.now) }
        ensures none { forced.now ≡ [] → IsOk result }
    {
        let mut image = Merged::new(alloc);
        enter_forced(&mut image.externals, &mut image.heads, forced.names())?;
        Ok(Session {
            forced: *forced,
            entries: Vec::new(alloc),
            undo_records: Vec::new(alloc),
            image,
            alloc,
        })
    }

    /// How many of the first externals are forced.
    pub fn forced_count(&self) -> u16
        ensures value { result ≡ length self.now.forced }
        ensures few { result ≤ 64 }
        ensures different { AreDifferent self.now.forced }
    {
        self.forced.names().len() as u16
    }

    /// Appends an object, and merges it into the image: its segments are appended and its names are resolved. Each word
    /// that refers to a name which is now defined is bound, in earlier objects too. (ld(1); the limits are an own choice)
    ///
    /// Errors, the first that applies: `TextFull`, 1, `DataFull`, 2, and `BssFull`, 3, if that segment would pass
    /// 65,534 bytes in all; `NamesFull`, 4, if there would be more than 65,535 externals; `Memory`, 5, if memory
    /// runs out for the object's cells, names and marks. Then nothing changes, and label and object are handed back.
    pub fn add(&mut self, label: String, object: Object) -> Result<(), AddRefused>
        ensures fits { OnOk result
            (refusal self.old.forced (objects self.old.entries) object ≡ None) }
        ensures added { OnOk result (Adds self.old self.new (labelled label object)) }
        ensures cause { IfErr result (λ refused.
            IsCause (refusal self.old.forced (objects self.old.entries) object) refused.cause) }
        ensures unchanged { OnErr result (self.new ≡ self.old) }
        ensures handed_back { IfErr result (λ refused.
            (refused.label ≡ label) × (refused.object ≡ object)) }
    {
        if let Some(cause) = limit_passed(&self.image, &object, self.alloc) {
            return Err(AddRefused {
                cause,
                label,
                object,
            });
        }
        let sizes = self.image.sizes();
        let joined = take_in(
            &mut self.entries,
            &mut self.undo_records,
            &mut self.image,
            &object,
            self.alloc,
        );
        match joined {
            Ok(marks) => {
                self.undo_records.push(UndoRecord { marks, sizes }).unwrap();
                self.entries.push(Entry::new(label, object)).unwrap();
                Ok(())
            }
            Err(error) => {
                let cause = AddFault::Memory(Refused::from(error));
                Err(AddRefused {
                    cause,
                    label,
                    object,
                })
            }
        }
    }

    /// Takes the object added last out again, and returns its label and the object. The image is then that of the
    /// others. `None` if there is no object. This does not fail for lack of memory.
    pub fn withdraw(&mut self) -> Option<(String, Object)>
        ensures none { IsNone result → (self.old.entries ≡ []) × (self.new ≡ self.old) }
        ensures last { IfSome result (λ last.
            Withdraws self.old self.new (labelled last.0 last.1)) }
    {
        let entry = self.entries.pop()?;
        let undo_record = self.undo_records.pop().unwrap();
        undo(&mut self.image, &undo_record.marks, &undo_record.sizes);
        Some(entry.into_parts())
    }

    /// The objects, in order, each with its label. Together they pass no limit.
    pub fn entries(&self) -> &[Entry]
        ensures value { result.now ≡ self.now.entries }
        ensures objects { AllByRecursion IsObject (objects self.now.entries) }
        ensures within { limit_passed self.now.forced (objects self.now.entries) ≡ None }
    {
        &self.entries
    }

    /// The cells of the merged text, in words.
    pub fn text_cells(&self) -> &[Cell]
        ensures value { result.now ≡ (image_of self.now).text_cells }
        ensures short { 2 * length result.now ≤ 65534 }
        ensures total { 2 * length result.now ≡ total TextSeg (objects self.now.entries) }
    {
        &self.image.text_cells
    }

    /// The cells of the merged data, in words.
    pub fn data_cells(&self) -> &[Cell]
        ensures value { result.now ≡ (image_of self.now).data_cells }
        ensures short { 2 * length result.now ≤ 65534 }
        ensures total { 2 * length result.now ≡ total DataSeg (objects self.now.entries) }
    {
        &self.image.data_cells
    }

    /// The size of the merged bss in bytes, without commons.
    pub fn bss_total(&self) -> u16
        ensures value { result ≡ (image_of self.now).bss_total }
        ensures small { result ≤ 65534 }
    {
        self.image.bss_total
    }

    /// The external with this index, by first mention: its name, and what is known of it; `None` if there are fewer.
    /// (ld(1))
    pub fn external(&self, index: u16) -> Option<(Name, State)>
        ensures { result ≡ slice_get (image_of self.now).externals index }
    {
        match self.image.externals.get_index(index as usize) {
            Some((name, state)) => Some((*name, *state)),
            None => None,
        }
    }

    /// The externals, one after another, by first mention. (ld(1))
    pub fn externals(&self) -> ExternalStates<'_>
        ensures value { result ≡ (image_of self.now).externals }
        ensures few { length result ≤ 65535 }
        ensures runs { GivesInOrder }
    {
        ExternalStates::of(&self.image.externals)
    }

    /// How many externals there are. (ld(1))
    pub fn external_count(&self) -> u16
        ensures { result ≡ length (image_of self.now).externals }
    {
        self.image.externals.len() as u16
    }

    /// The index of an external name; `None` if nothing mentions it. (ld(1))
    pub fn find(&self, name: &Name) -> Option<u16>
        ensures { result
            ≡ position (bytes_eq name.now) (externals self.now.forced (objects self.now.entries)) }
    {
        match self.image.externals.get_index_of(name) {
            Some(index) => Some(index as u16),
            None => None,
        }
    }

    /// The names that are multiply defined: one for each symbol whose definition differs from the first of its name.
    /// (ld(1))
    pub fn multiples(&self) -> &[Name]
        ensures { result.now ≡ (image_of self.now).multiples }
    {
        &self.image.multiples
    }

    /// What the addition of the last object overwrote, and nothing else; empty without objects. A name may have several
    /// marks, as a common that grows several times: the first has its state before the addition, and each later one the
    /// state that the change before it led to. A cell has at most one.
    pub fn last_marks(&self) -> &[Mark]
        ensures value { result.now ≡ newest self.now.journal }
        ensures journal { IsJournal self.now.forced (objects self.now.entries) self.now.journal }
    {
        match self.undo_records.last() {
            Some(undo_record) => &undo_record.marks,
            None => &[],
        }
    }
}
