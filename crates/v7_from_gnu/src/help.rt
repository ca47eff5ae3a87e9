//! How the program is called, and what its help shows.

/// How the program is called.
pub(crate) const USAGE: &str = "usage: v7-from-gnu [-SXxq] IN OUT
       v7-from-gnu [-SXxq] -o FOLDER FILE...
       v7-from-gnu --help | --version
";

/// What the help shows.
pub(crate) const HELP: &str = "usage: v7-from-gnu [-SXxq] IN OUT
       v7-from-gnu [-SXxq] -o FOLDER FILE...

Makes objects of the Seventh Edition of those that GNU's assembler makes. Names
are cut at eight bytes.

  -o FOLDER  puts the object of each FILE into FOLDER, under its name
  -S         drops the symbols for a debugger
  -X         drops locals to which no word refers
  -x         drops all locals
  -q         is quiet about names that are cut and locals that are dropped

examples:
  v7-from-gnu squares.gnu squares.o
  mkdir converted && v7-from-gnu -o converted main.gnu twice.gnu

The manual is v7-from-gnu(1): man v7-from-gnu
";
