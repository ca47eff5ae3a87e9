//! A file system over memory, which lists what it is asked: so its history is known, and what is promised of any file
//! system says of this one what was opened and stored. A session is run on it.
ghost use Rattle.std.specs.Prelude.{◌≡◌, [], ◌∷◌, ◌++◌, string_bytes};

use crate::fixtures::{Asked, path_fault, words};
use aout_core::samples::{A_O, TestReader, TestWriter};
use aout_core::{File, Parts, Wire};
use host::{Found, PathFault};
use std::alloc::Global;
use std::process::Abort;
use std::test::Fail;
use v7tools::{BlockWriter, FileSystem, Outputs, Stored, perform};

/// What a file system was asked for: the request and its path.
fn request(asked: &Asked) -> (&str, &str) {
    match asked {
        Asked::Opened(path, _) => ("open", path.as_str()),
        Asked::Closed(is_failed) => ("close", if *is_failed { "failed" } else { "" }),
        Asked::Stored(path, ..) => ("store", path.as_str()),
        Asked::Written(path, ..) => ("store text", path.as_str()),
        Asked::Looked(path) => ("look", path.as_str()),
    }
}

/// A file system of `a.o`, which stores each file that it is given, and does not open it again. It lists what it is asked,
/// and ends the test if there is no memory for that.
#[derive(Drop)]
struct MemoryFileSystem<'a, R> {
    rt: &'a R,
    asked: Vec<Asked>,
}

impl<R> MemoryFileSystem<'_, R> {
    /// Whether this is all that it was asked, in order.
    fn was_asked(&self, want: &[(&str, &str)]) -> bool {
        let mut is_so = self.asked.len() == want.len();
        for (asked, want) in self.asked.iter().zip(want) {
            is_so = is_so && request(asked) == *want;
        }
        is_so
    }
}

impl<'a, R: Abort + AllocGlobal> MemoryFileSystem<'a, R> {
    /// One that was asked nothing yet.
    fn new(rt: &'a R) -> MemoryFileSystem<'a, R>
        ensures { result.asked.items ≡ [] }
    {
        MemoryFileSystem {
            rt,
            asked: Vec::new(rt.alloc()),
        }
    }

    /// A path, owned.
    fn owned(&self, path: &str) -> String
        ensures { string_bytes result ≡ path.now }
    {
        String::from_str(self.rt.alloc(), path).expect(self.rt, "no memory")
    }

    /// The same file once more.
    fn copied(&self, file: &File) -> File
        ensures { result ≡ file.now }
    {
        let alloc = self.rt.alloc();
        File::from_parts(Parts {
            header: *file.header(),
            text_words: Vec::from_slice(alloc, file.text_words()).expect(self.rt, "no memory"),
            data_words: Vec::from_slice(alloc, file.data_words()).expect(self.rt, "no memory"),
            text_reloc: Vec::from_slice(alloc, file.text_reloc()).expect(self.rt, "no memory"),
            data_reloc: Vec::from_slice(alloc, file.data_reloc()).expect(self.rt, "no memory"),
            symbols: Vec::from_slice(alloc, file.symbols()).expect(self.rt, "no memory"),
        })
    }

    /// Lists what it was asked.
    fn list(&mut self, asked: Asked)
        ensures { self.new.asked.items ≡ self.old.asked.items ++ asked ∷ [] }
    {
        self.asked.push(asked).ok().expect(self.rt, "no memory")
    }
}

impl<R: Abort + AllocGlobal> FileSystem for MemoryFileSystem<'_, R> {
    ghost use Rattle.std.specs.Prelude.{[], ◌∷◌};
    ghost use Rattle.host.specs.Events.{Extends, closed};
    ghost use Rattle.device_tests.specs.Histories.{history_of};

    type Source = TestReader<'static>;

    ghost history = { λ file_system. history_of file_system.asked.items };

    fn open(&mut self, path: &str) -> Result<TestReader<'static>, PathFault> {
        let found: Option<&'static [u8]> = if path == "a.o" { Some(&A_O) } else { None };
        self.list(Asked::Opened(self.owned(path), found));
        match found {
            Some(bytes) => Ok(TestReader::whole(bytes)),
            None => Err(path_fault()),
        }
    }

    fn close(&mut self, source: Wire<TestReader<'static>>)
        ensures { Extends (history_of self.old.asked.items) (history_of self.new.asked.items)
            (closed source.entry.has_failed ∷ []) }
    {
        self.list(Asked::Closed(source.failed()));
    }

    fn node(&mut self, path: &str) -> Found {
        self.list(Asked::Looked(self.owned(path)));
        Found::NoFile
    }

    fn store(&mut self, path: &str, file: &File) -> Stored {
        self.list(Asked::Stored(self.owned(path), self.copied(file), Stored::Kept));
        Stored::Kept
    }

    fn store_text(&mut self, path: &str, text: &[u8]) -> Stored {
        let copied = Vec::from_slice(self.rt.alloc(), text).expect(self.rt, "no memory");
        self.list(Asked::Written(self.owned(path), copied, Stored::Kept));
        Stored::Kept
    }
}

/// The status of a session on these files, and its answers.
fn session<O: FileSystem>(
    alloc: Global,
    file_system: &mut O,
    script: &[u8],
) -> Result<(u8, Vec<u8>), Fail> {
    let mut device = TestWriter::whole(Vec::new(alloc));
    let mut outputs = Outputs {
        output: Wire::new(BlockWriter::new(&mut device)),
        error: Wire::new(TestWriter::whole(Vec::new(alloc))),
    };
    let script = TestReader::whole(script);
    let status = perform(
        alloc,
        file_system,
        script,
        &mut outputs,
        words(alloc, &["session"])?,
    );
    drop(outputs);
    Ok((status, device.into_taken()))
}

#[test]
fn file_system_with_a_history(rt: HostRuntime) -> Result<(), Fail> {
    let mut file_system = MemoryFileSystem::new(&rt);
    let script = b"add nofile\nadd a.o\nlink out\n";
    let (status, answers) = session(rt.alloc(), &mut file_system, script)?;
    assert!(rt; status == 1);
    assert!(rt; answers.as_slice() == b"nofile: cannot open\nadded a.o\nlinked out 0\n".as_slice());
    assert!(rt;
        file_system.was_asked(&[
            ("open", "nofile"),
            ("open", "a.o"),
            ("close", ""),
            ("store", "out"),
        ])
    );
    Ok(())
}
