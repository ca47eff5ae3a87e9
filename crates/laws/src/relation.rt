//! What linking is, over definitions alone. The law is the contract of a function with an empty body.
ghost use Rattle.laws.specs.{relation.LinkedFrom.{LinkedExactly, LinkedOnce}, relation.Refusals.RefusedExactly};
ghost use Rattle.laws.specs.Origins.{AllFit, EachIsFound};

/// What linking is: the relation `IsLinkedFrom` of specs/relation/LinkedFrom holds of what a link gives, and of nothing else. It is
/// stated over the objects, the forced names, the options, the file and the report alone. (ld(1), a.out(5))
///
/// - `exactly`: a link of objects gives a file and a report if and only if the relation holds of them.
/// - `once`: it holds of at most one file and report for the same objects, forced names and options.
/// - `refused`: a link of objects is refused if and only if its end, its table or the number of a symbol is too large. The fault is the
///   first of these. Whether one applies is stated over the objects, the forced names and the options alone.
pub fn linking_law()
    ensures exactly { LinkedExactly }
    ensures once { LinkedOnce }
    ensures refused { RefusedExactly }
{}

/// Where the objects of a link are in the file that it gives, whatever the options are, also with `-s`. (ld(1), a.out(5))
///
/// - `fit`: there is one address for each name, by which each object fits at the sum of the texts and of the data before it: each of its
///   words, relocated by the moves of its segments and these addresses, is the file's word there.
/// - `found`: so that address is among those of `origins::places`.
pub fn origin_law()
    ensures fit { AllFit }
    ensures found { EachIsFound }
{}
