//! Laws of linking, over its definitions alone: each is the contract of a function with an empty body.
ghost use Rattle.link_out.specs.laws.Stripping.{StripLaw, StripsOnce};
ghost use Rattle.link_out.specs.laws.PartialLinks.{PartialIsObject, PartialReplacesAlone, PartialReplacesAmong};

/// Stripping a linked program gives what a link without symbols gives: if a link without relocation gives a file, the link with
/// `-s` gives that file stripped, with the same report. Stripping twice is stripping once. (strip(1))
pub fn strip_law()
    ensures link { StripLaw }
    ensures once { StripsOnce }
{}

/// A partial link is one with `-r` and without `-d`. It stands for its objects. Linked alone it gives what its objects
/// give, but for the multiples reported; linked among others it gives what its objects give among them, if no name is
/// multiply defined. Both are of links that keep no local which the partial link dropped, with the same forced names.
/// The file of any link with `-r` is an object. (ld(1), the options `-r` and `-d`)
pub fn partial_law()
    ensures object { PartialIsObject }
    ensures alone { PartialReplacesAlone }
    ensures among { PartialReplacesAmong }
{}
