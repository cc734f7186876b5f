// A chip's disk in a file, the trusted edge.
ghost use Rattle.std.specs.Prelude.{◌≡◌, ◌≤◌, ◌+◌, ◌↔◌, length, IfOk, IsErr, IsTrue, is_ok, false};
ghost use Rattle.eac_base.specs.Causes.{HasCause};
ghost use Rattle.chip_slots.specs.Crash.{CountsCall};

use crate::ChipDisk;
use eac_base::{Failed, NoMemory};
use std::fs::File;
use std::os::unix::fs::FileExt;
use std::rt::Files;
use std::{fs, io};

/// A file as a chip's disk. It counts its device calls and its faults, and tells nothing of what stands in the file.
///
/// After a sync that failed the operating system may have dropped what was written before, and a later sync would
/// succeed all the same. So each device call after it fails: nothing is called stable that isn't.
#[derive(Drop)]
pub struct FileDisk {
    file: File,
    size: u64,
    calls: u64,
    faults: u64,
    // a sync has failed
    sync_failed: bool,
}

impl FileDisk {
    /// A new file of so many zero bytes, and no device call yet. The file and its folder were synced.
    ///
    /// # Errors
    ///
    /// Those of the file system. A file that is there already is refused, and stays as it was. A file that was made in
    /// part is removed, where that can be done.
    pub fn make(rt: &impl Files<File = File>, path: &str, size: u64) -> io::Result<FileDisk>
        ensures size { IfOk result (λ disk. disk.size ≡ size) }
        ensures calls { IfOk result (λ disk. disk.calls ≡ 0) }
        ensures faults { IfOk result (λ disk. disk.faults ≡ 0) }
    {
        let file = File::create_new(rt, path)?;
        match fill_and_sync(rt, path, &file, size) {
            Ok(()) => Ok(FileDisk {
                file,
                size,
                calls: 0,
                faults: 0,
                sync_failed: false,
            }),
            Err(error) => {
                let _ = fs::remove_file(rt, path);
                Err(error)
            }
        }
    }

    // Begins a device call, and says whether it is to be made: the count doesn't stand at its last value, and no sync
    // has failed.
    fn begin(&mut self) -> bool
        ensures size { self.new.size ≡ self.old.size }
        ensures calls { CountsCall result self.old.calls self.new.calls }
        ensures faults { self.new.faults ≡ self.old.faults }
        ensures mark { self.new.sync_failed ≡ self.old.sync_failed }
        ensures refused { IsTrue self.old.sync_failed → result ≡ false }
    {
        match self.calls.checked_add(1) {
            Some(calls) => {
                self.calls = calls;
                !self.sync_failed
            }
            None => false,
        }
    }

    // Ends a device call, which is counted where it failed.
    fn answer(&mut self, done: bool) -> Result<(), Failed>
        ensures ok { is_ok result ≡ done }
        ensures size { self.new.size ≡ self.old.size }
        ensures calls { self.new.calls ≡ self.old.calls }
        ensures cause { HasCause self.old.faults self.new.faults result }
        ensures mark { self.new.sync_failed ≡ self.old.sync_failed }
    {
        if done {
            return Ok(());
        }
        self.faults = self.faults.saturating_add(1);
        Err(Failed)
    }
}

// The folder that a file of this path lies in.
fn folder_of(path: &str) -> &str {
    match path.rsplit_once('/') {
        Some(("", _)) => "/",
        Some((folder, _)) => folder,
        None => ".",
    }
}

// Fills a new file with zero bytes, and syncs it and the folder that has it.
fn fill_and_sync(
    rt: &impl Files<File = File>,
    path: &str,
    file: &File,
    size: u64,
) -> io::Result<()> {
    fill(file, size)?;
    file.sync_all()?;
    let folder = File::open(rt, folder_of(path))?;
    folder.sync_all()
}

fn fill(file: &File, size: u64) -> io::Result<()> {
    let zeros = [0u8; 512];
    let mut at: u64 = 0;
    while at < size {
        let piece = (size - at).min(512);
        file.write_all_at(&zeros[..piece as usize], at)?;
        at += piece;
    }
    Ok(())
}

impl ChipDisk for FileDisk {
    ghost use Rattle.std.specs.Prelude.{[]};

    ghost tells = { λ _. ⊥ };

    ghost told = { λ _ _. record { bytes = []; pending = [] } };

    ghost size = { λ d. d.size };

    ghost moment = { λ d. d.calls };

    ghost faults = { λ d. d.faults };

    ghost spare = { λ _. 32 };

    ghost measured = { λ d told. absurd told };

    fn len(&self) -> u64 {
        self.size
    }

    fn calls(&self) -> u64 {
        self.calls
    }

    fn read(&mut self, at: u64, into: &mut [u8]) -> Result<(), Failed>
        requires range { at + length into.old ≤ self.old.size }
        requires piece { length into.old ≤ 8192 }
        ensures size { self.new.size ≡ self.old.size }
        ensures moment { CountsCall (is_ok result) self.old.calls self.new.calls }
        ensures cause { HasCause self.old.faults self.new.faults result }
        // After a sync that failed each call fails.
        ensures refused { IsTrue self.old.sync_failed → IsErr result }
        ensures mark { self.new.sync_failed ≡ self.old.sync_failed }
    {
        let begun = self.begin();
        let done = begun && self.file.read_exact_at(into, at).is_ok();
        self.answer(done)
    }

    fn write_at(&mut self, at: u64, from: &[u8]) -> Result<(), Failed>
        requires range { at + length from.now ≤ self.old.size }
        requires piece { length from.now ≤ 8192 }
        ensures size { self.new.size ≡ self.old.size }
        ensures moment { CountsCall (is_ok result) self.old.calls self.new.calls }
        ensures cause { HasCause self.old.faults self.new.faults result }
        // After a sync that failed each call fails.
        ensures refused { IsTrue self.old.sync_failed → IsErr result }
        ensures mark { self.new.sync_failed ≡ self.old.sync_failed }
    {
        let begun = self.begin();
        let done = begun && self.file.write_all_at(from, at).is_ok();
        self.answer(done)
    }

    fn sync(&mut self) -> Result<(), Failed>
        ensures size { self.new.size ≡ self.old.size }
        ensures moment { CountsCall (is_ok result) self.old.calls self.new.calls }
        ensures cause { HasCause self.old.faults self.new.faults result }
        // After a sync that failed each call fails.
        ensures refused { IsTrue self.old.sync_failed → IsErr result }
        ensures mark { IsTrue self.new.sync_failed ↔ IsErr result }
    {
        let begun = self.begin();
        let done = begun && self.file.sync_all().is_ok();
        self.sync_failed = !done;
        self.answer(done)
    }

    fn reserve(&mut self) -> Result<(), NoMemory>
        ensures same { self.new ≡ self.old }
    {
        Ok(())
    }
}
