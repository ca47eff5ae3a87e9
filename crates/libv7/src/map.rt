//! The buffers for the map of a link.
ghost use Rattle.std.specs.Prelude.{◌≡◌, true, false};
ghost use Rattle.libv7.specs.RunAnswers.{results_of};
ghost use Rattle.libv7.specs.MapLeft.{is_short, left_in, with_map};

use crate::buffers::leave_items;
use crate::output::{LinkOutput, MapHead};
use link_maps::{LimitRecord, NameRecord, ObjectRecord, UseRecord};

/// What a map is written to.
#[repr(C)]
#[derive(Drop)]
pub struct MapAnswer<'a> {
    /// What becomes of the link.
    pub head: MapHead,
    pub object_count: usize,
    pub name_count: usize,
    pub use_count: usize,
    pub limit_count: usize,
    pub objects: &'a mut [ObjectRecord],
    pub names: &'a mut [NameRecord],
    pub uses: &'a mut [UseRecord],
    pub limits: &'a mut [LimitRecord],
}

impl MapAnswer<'_> {
    /// Whether a buffer is too short.
    pub(crate) fn is_short(&self, given: &LinkOutput) -> bool
        ensures { result ≡ is_short (results_of given.now).map (left_in self.now) }
    {
        let records = &given.records;
        self.objects.len() < records.objects.len()
            || self.names.len() < records.names.len()
            || self.uses.len() < records.uses.len()
            || self.limits.len() < records.limits.len()
    }

    /// Tells how many records there are, and writes them and the head if all fits.
    pub(crate) fn leave(&mut self, fits: bool, given: &LinkOutput)
        requires { fits ≡ true → is_short (results_of given.now).map (left_in self.old) ≡ false }
        ensures { left_in self.new ≡ with_map fits (results_of given.now).map (left_in self.old) }
    {
        let records = &given.records;
        leave_items(
            fits,
            &records.objects,
            &mut *self.objects,
            &mut self.object_count,
        );
        leave_items(fits, &records.names, &mut *self.names, &mut self.name_count);
        leave_items(fits, &records.uses, &mut *self.uses, &mut self.use_count);
        leave_items(
            fits,
            &records.limits,
            &mut *self.limits,
            &mut self.limit_count,
        );
        if fits {
            self.head = given.head;
        }
    }
}
