//! How the program is called, and what its help shows.

/// How the program is called.
pub(crate) const USAGE: &str = "usage: v7-explain [-c [-t]|-d|-l|-p|-s] FILE...
       v7-explain [-d] -y WHAT FILE
       v7-explain -l -R PATH...
       v7-explain -o LISTING FILE
       v7-explain -m [-y WHAT]... [OPTIONS OF LD] FILE...
       v7-explain --help | --version
";

/// What the help shows.
pub(crate) const HELP: &str = "usage: v7-explain [-c [-t]|-d|-l|-p|-s] FILE...
       v7-explain [-d] -y WHAT FILE
       v7-explain -l -R PATH...
       v7-explain -o LISTING FILE
       v7-explain -m [-y WHAT]... [OPTIONS OF LD] FILE...

Lists each FILE: its header, its words with what they mean, its symbols, and
what is wrong or odd. An option asks for something else.

  -o LISTING  stores the listing of one FILE, if nothing is wrong
  -c          asks whether ld takes each FILE, and what is odd in it
  -t          takes all of the text for instructions, with -c
  -d          shows the text as instructions
  -p          shows the text as instructions of a program without Unix
  -s          shows text and data in rows of words, in octal
  -l          shows an inventory, a line for each FILE
  -R          goes into folders too, with -l
  -m          shows the map of a link; it is the first argument
  -y WHAT     shows of a FILE only a name or an octal address, or with -d
              that function; after -m also an object, and may be repeated

examples:
  v7-explain -d main.o
  v7-explain -m main.o twice.o count.o

The manual is v7-explain(1): man v7-explain
";
