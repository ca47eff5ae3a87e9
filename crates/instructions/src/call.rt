//! System calls of the Seventh Edition, whose arguments follow `sys`.

/// A system call. (section 2 of the Unix Programmer's Manual, Seventh Edition)
#[derive(Clone, Copy, Debug, PartialEq, Eq)]
pub enum SystemCall {
    Indir,
    Exit,
    Fork,
    Read,
    Write,
    Open,
    Close,
    Wait,
    Creat,
    Link,
    Unlink,
    Exec,
    Chdir,
    Time,
    Mknod,
    Chmod,
    Chown,
    Break,
    Stat,
    Lseek,
    Getpid,
    Mount,
    Umount,
    Setuid,
    Getuid,
    Stime,
    Ptrace,
    Alarm,
    Fstat,
    Pause,
    Utime,
    Stty,
    Gtty,
    Access,
    Nice,
    Ftime,
    Sync,
    Kill,
    Dup,
    Pipe,
    Times,
    Profil,
    Setgid,
    Getgid,
    Signal,
    Acct,
    Phys,
    Lock,
    Ioctl,
    Mpx,
    Exece,
    Umask,
    Chroot,
}

/// The name of a variant.
macro_rules! named {
    ($value:expr; $($variant:ident $name:literal,)*) => { match $value { $(SystemCall::$variant => $name,)* } };
}

impl SystemCall {
    /// The name of the call. (section 2 of the Unix Programmer's Manual, Seventh Edition)
    pub fn name(self) -> &'static str {
        named!(
            self;
            Indir "indir", Exit "exit", Fork "fork", Read "read", Write "write", Open "open", Close "close", Wait "wait",
            Creat "creat", Link "link", Unlink "unlink", Exec "exec", Chdir "chdir", Time "time", Mknod "mknod", Chmod "chmod",
            Chown "chown", Break "break", Stat "stat", Lseek "lseek", Getpid "getpid", Mount "mount", Umount "umount", Setuid "setuid",
            Getuid "getuid", Stime "stime", Ptrace "ptrace", Alarm "alarm", Fstat "fstat", Pause "pause", Utime "utime", Stty "stty",
            Gtty "gtty", Access "access", Nice "nice", Ftime "ftime", Sync "sync", Kill "kill", Dup "dup", Pipe "pipe", Times "times",
            Profil "profil", Setgid "setgid", Getgid "getgid", Signal "signal", Acct "acct", Phys "phys", Lock "lock", Ioctl "ioctl",
            Mpx "mpx", Exece "exece", Umask "umask", Chroot "chroot",
        )
    }
}
