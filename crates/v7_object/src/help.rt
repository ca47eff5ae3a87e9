//! How the program is called, and what its help shows.

/// How the program is called.
pub(crate) const USAGE: &str = "usage: v7-object [-n] LISTING FILE
       v7-object --help | --version
";

/// What the help shows.
pub(crate) const HELP: &str = "usage: v7-object [-n] LISTING FILE

Makes the a.out file FILE of a listing, which v7-explain writes, or a person.
Mistakes in the listing are shown with their lines and columns, and no file is
made then.

  -n         computes the address of each word, whatever address the listing has
  --help     shows this text
  --version  shows the version

examples:
  v7-object twice.lst copy.o
  v7-explain -o main.lst main.o && v7-object main.lst copy.o

The manual is v7-object(1): man v7-object
";
