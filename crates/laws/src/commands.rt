//! Laws of commands, over the definitions of what they do. Each law is the contract of a function with an empty body. Files are
//! known by their paths: two paths are two files.
ghost use Rattle.laws.specs.SessionsByCommands.{LinkLineLaw, RefusedLineLaw, SameDiskLaw, UndoLaw};
ghost use Rattle.laws.specs.{Builds.{BuildsLaw, OnceLaw, ElsewhereLaw}, Calls.{LinkCallLaw, SessionCallLaw}};

use std::io::Write;

/// A run of `perform` is a run of the session, or of the `ld`, that its arguments ask for.
///
/// - `session`: it ran the first lines of its script, one after another, and answered them: all of them; or those before one that the
///   script does not give, or for which memory ran out; or those before one whose answer could not be written whole. Or memory ran out
///   before the first line, and nothing was asked or answered.
/// - `link`: it opened the files in order and linked them, or tells why not.
pub fn call_law<W: Write, E: Write>()
    ensures session { SessionCallLaw W.contents E.contents }
    ensures link { LinkCallLaw W.contents E.contents }
{}

/// A link in a session is a link by `ld` of the files that are left: those that were added before it and not withdrawn.
///
/// The lines of a session are any that were run one after another, as `call_law` says of each session, whatever ends it.
///
/// - `linked`: take a line `link P` that stored its file, and any `ld -o Q` with the options and the `-u` of the session, of the files
///   that are left, on a disk that has the bytes which the session read. It opens these files and stores in Q what the line stored in
///   P, the line answered what it writes, and after that `linked P` with its status, and has that status too. Or memory ran out, or its
///   last event shows that an input could not be read or the file not written, or standard output failed.
/// - `refused`: take a line `link P` that asked for nothing to be stored, for another reason than that memory ran out. Then `ld` ends with
///   2, stores nothing and writes nothing to standard output, and its line on standard error is `v7: ` and the answer of the session. Or
///   memory ran out, or its last event shows that an input could not be read. A line that met `cannot create` or `write error` asked for
///   its file.
/// - `disks`: a disk has the bytes which the session read, if it has those of the session's disk at the paths that are left, and no
///   line before stored a file at these paths.
pub fn session_law<W: Write, E: Write>()
    ensures linked { LinkLineLaw W.contents E.contents }
    ensures refused { RefusedLineLaw W.contents E.contents }
    ensures disks { SameDiskLaw }
{}

/// Two lines that add a file and withdraw it leave no trace.
///
/// Take two sessions that end well, with the same options and `-u`, of a script and of the same with two lines put in anywhere: `add P`,
/// which is accepted, and `withdraw`. If the system gave both the same, the longer one answers what the shorter one does, with `added P` and
/// `withdrew P` between. It asks of the system what that asks, and opens and closes P between, and it ends with the same status.
pub fn undo_law<W: Write, E: Write>()
    ensures { UndoLaw W.contents E.contents }
{}

/// A build is determined by its files. It is a list of steps, each an `ld -r` of files and of what earlier steps stored, which ended with
/// status 0 or 1, and a last `ld`, with or without `-r`. (ld(1), the options `-r` and `-d`)
///
/// - `builds`: take two builds, on one disk or on two, whose last commands have the same options and the same `-u`, and stand for files with
///   the same bytes in the same order, at any paths. They store the same bytes, write the same report, and have the same status. Or both
///   are refused: neither stores or writes anything, and they write the same line to standard error if all files are objects that a
///   session accepts. Or memory ran out, or the last event shows that an input could not be read or the file not written, or standard output
///   failed. Each step has to be without
///   `-d`, to keep the locals that the last command keeps, and to force no other names than that, and no name of the files may be
///   multiply defined.
/// - `once`: so a build does what one `ld` does with all its files, as they were before the build.
/// - `elsewhere`: the steps change nothing at paths other than those at which they store. So if they store at none of the files' paths, that
///   `ld` may run on the disk that the build leaves.
pub fn build_law<W: Write, E: Write>()
    ensures builds { BuildsLaw W.contents E.contents }
    ensures once { OnceLaw W.contents E.contents }
    ensures elsewhere { ElsewhereLaw W.contents E.contents }
{}
