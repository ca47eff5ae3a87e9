//! An external of one of several files.
ghost use Rattle.std.specs.Prelude.{◌≡◌};
ghost use Rattle.aout_core.specs.Names.{before_nul};

/// An external of a file of this number.
#[derive(Drop)]
pub(crate) struct External<'a> {
    pub(crate) file: usize,
    pub(crate) name: &'a [u8],
    ghost no_nul: { before_nul name.now ≡ name.now },
}
