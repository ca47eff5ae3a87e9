//! The text of the map of a link: the whole one, or of what is asked for. docs/OBJECTS.md shows one. Only tested: the text.
use crate::asked::Asked;
use crate::map_names::{Section, put_absent, put_section, put_statics};
use crate::map_odd::put_oddities;
use crate::map_parts::{put_head, put_limits, put_members, put_objects, put_segments};
use crate::map_spots::put_spots;
use aout_core::{Name, Symbol};
use disassemblies::NamedFile;
use host::Path;
use link_maps::{LinkMap, Listed, Objects, Use};
use link_out::Options;
use std::alloc::{AllocError, Global};
use texts::Text;

/// A map, its objects, and what is asked of it; nothing for the whole map.
#[derive(Drop)]
pub(crate) struct Mapped<'a> {
    pub(crate) map: &'a LinkMap,
    pub(crate) objects: &'a Objects,
    pub(crate) all: &'a [Listed<'a>],
    pub(crate) asked: &'a Asked,
    /// The uses of each name.
    pub(crate) groups: Vec<&'a [Use]>,
    /// The objects, each with its symbols found by their values.
    pub(crate) files: Vec<NamedFile<'a>>,
}

impl<'a> Mapped<'a> {
    /// A map of these objects. An error: out of memory.
    pub(crate) fn new(
        alloc: Global,
        objects: &'a Objects,
        all: &'a [Listed<'a>],
        map: &'a LinkMap,
        asked: &'a Asked,
    ) -> Result<Mapped<'a>, AllocError> {
        let mut files = Vec::new(alloc);
        for object in all {
            files.push(NamedFile::new(alloc, object.file)?)?;
        }
        Ok(Mapped {
            map,
            objects,
            all,
            asked,
            groups: map.by_name(alloc)?,
            files,
        })
    }

    /// The row of a name in the table of the link.
    pub(crate) fn row(&self, name: &Name) -> Option<Symbol> {
        self.map.row(&self.objects.session, name)
    }

    /// The path of an object; empty for a forced name.
    pub(crate) fn path(&self, object: Option<usize>) -> Path<'a> {
        match self.all.get(object.unwrap_or(usize::MAX)) {
            Some(listed) => Path(listed.label),
            None => Path(""),
        }
    }

    /// The text of the whole map, or only what is asked for. An error: out of memory.
    pub(crate) fn text(
        &self,
        alloc: Global,
        options: &Options,
        is_whole: bool,
    ) -> Result<Vec<u8>, AllocError> {
        let mut text = Text::new(alloc);
        put_head(&mut text, self);
        if is_whole {
            put_limits(&mut text, self, options)?;
            put_segments(&mut text, self.map);
            put_section(&mut text, self, Section::Undefined, "\nUndefined\n");
            put_section(&mut text, self, Section::Multiple, "\nMultiply defined\n");
            put_oddities(&mut text, self)?;
            if !options.is_relocatable() {
                put_section(&mut text, self, Section::Unused, "\nUnused\n");
            }
            put_members(&mut text, self);
            put_section(&mut text, self, Section::All, "\nExternals\n");
        } else {
            let asked = self.asked;
            put_spots(&mut text, self)?;
            for path in &asked.paths {
                put_objects(&mut text, self, path.as_str());
            }
            put_statics(&mut text, self)?;
            let title = put_section(&mut text, self, Section::Asked, "\nExternals\n");
            put_absent(&mut text, asked, false, title);
        }
        text.finish()
    }
}
