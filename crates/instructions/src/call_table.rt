//! The table of system calls.
use crate::call::SystemCall;

/// A row of the table of calls: the call, its number, and how many words follow `sys` as its arguments. (section 2 of the Unix
/// Programmer's Manual, Seventh Edition)
#[derive(Clone, Copy, Debug, PartialEq, Eq)]
pub struct CallRow {
    pub call: SystemCall,
    pub number: u16,
    pub words: u8,
}

/// A row: its call, number, and how many words follow.
macro_rules! row {
    ($call:ident, $number:literal, $words:literal) => { CallRow { call: SystemCall::$call, number: $number, words: $words } };
}

/// All system calls, in the order of their numbers; no call has another number. `laws::call_table_law` compares them with the
/// manual's. (section 2 of the Unix Programmer's Manual, Seventh Edition)
pub static CALLS: [CallRow; 53] = [
    row!(Indir, 0, 1),
    row!(Exit, 1, 0),
    row!(Fork, 2, 0),
    row!(Read, 3, 2),
    row!(Write, 4, 2),
    row!(Open, 5, 2),
    row!(Close, 6, 0),
    row!(Wait, 7, 0),
    row!(Creat, 8, 2),
    row!(Link, 9, 2),
    row!(Unlink, 10, 1),
    row!(Exec, 11, 2),
    row!(Chdir, 12, 1),
    row!(Time, 13, 0),
    row!(Mknod, 14, 3),
    row!(Chmod, 15, 2),
    row!(Chown, 16, 3),
    row!(Break, 17, 1),
    row!(Stat, 18, 2),
    row!(Lseek, 19, 3),
    row!(Getpid, 20, 0),
    row!(Mount, 21, 3),
    row!(Umount, 22, 1),
    row!(Setuid, 23, 0),
    row!(Getuid, 24, 0),
    row!(Stime, 25, 0),
    row!(Ptrace, 26, 3),
    row!(Alarm, 27, 0),
    row!(Fstat, 28, 1),
    row!(Pause, 29, 0),
    row!(Utime, 30, 2),
    row!(Stty, 31, 1),
    row!(Gtty, 32, 1),
    row!(Access, 33, 2),
    row!(Nice, 34, 0),
    row!(Ftime, 35, 1),
    row!(Sync, 36, 0),
    row!(Kill, 37, 1),
    row!(Dup, 41, 0),
    row!(Pipe, 42, 0),
    row!(Times, 43, 1),
    row!(Profil, 44, 4),
    row!(Setgid, 46, 0),
    row!(Getgid, 47, 0),
    row!(Signal, 48, 2),
    row!(Acct, 51, 1),
    row!(Phys, 52, 3),
    row!(Lock, 53, 1),
    row!(Ioctl, 54, 3),
    row!(Mpx, 56, 4),
    row!(Exece, 59, 3),
    row!(Umask, 60, 1),
    row!(Chroot, 61, 1),
];
