//! How the program is called, and what its help shows.

/// How the program is called.
pub(crate) const USAGE: &str = "usage: v7-origin [-q] [-a] [-o FILE] [-R FOLDER] PROGRAM [OBJECT...]
       v7-origin --help | --version
";

/// What the help shows.
pub(crate) const HELP: &str = "usage: v7-origin [-q] [-a] [-o FILE] [-R FOLDER] PROGRAM [OBJECT...]

Finds which of the objects a program was linked from, and where they are in it.
The program may be stripped. If all of it is found, the last line is the command
that makes it again.

  -o FILE    stores the program in FILE with the externals of the objects found
  -a         stores their locals too
  -R FOLDER  looks among the objects of a folder too, and of those below it
  -q         writes nothing: the status is 0 if all of the program is found,
             1 if not, and 2 after an error
  --help     shows this text
  --version  shows the version

examples:
  v7-origin program *.o
  v7-origin -o named program *.o && v7-explain -d named

The manual is v7-origin(1): man v7-origin
";
