//! Laws of what is found: contracts of functions with empty bodies.
ghost use Rattle.checks.specs.{ReachedLaw.ReachedLaw, SureLaw.{SureLaw, SureWordsLaw}, WrongLaw.{WrongWordsLaw, WrongObjectsLaw}};

/// No relocation word is shown as wrong if and only if the check of objects accepts them all. So with the magic number of an object,
/// and with its relocation, a file is an object.
pub fn wrong_words_law()
    ensures words { WrongWordsLaw }
    ensures objects { WrongObjectsLaw }
{}

/// Exactly the places are found of which there is evidence, or to which the line at such a place leads, and so on.
pub fn reached_law()
    ensures { ReachedLaw }
{}

/// What a text shows by it that nothing is suspicious in it for sure.
///
/// - `lines`: a whole instruction or a call begins at each sure place. A branch there leads into the text or to its end. If all
///   of the text is instructions, it does not lead within one.
/// - `words`: no word at a sure place is relocated. Each operand word of the instruction there that is relocated has the pc bit exactly
///   if its operand counts from the pc; but that of `$N` may have it, in code that runs at any address.
pub fn sure_law()
    ensures lines { SureLaw }
    ensures words { SureWordsLaw }
{}
