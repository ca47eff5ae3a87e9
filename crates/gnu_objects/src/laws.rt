//! The law of conversions, over their definitions alone.
ghost use Rattle.gnu_objects.specs.Laws.{ConversionLaw};

/// An object that is converted keeps the value, the kind and the pc bit of each word. A word that refers to a symbol by its
/// number refers to the symbol of the same name, type and value afterwards. The symbols that the options keep are there, in
/// their order, and different names stay different.
pub fn conversion_law()
    ensures { ConversionLaw }
{}
