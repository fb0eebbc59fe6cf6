//! Files in memory, for tests.
ghost use Rattle.std.specs.Prelude.{◌≡◌, ◌≢◌, ◌⊎◌, ◌<◌, ◌≤◌, ◌+◌, ◌-◌, [], List, ℕ, Some, length, min, take, drop, Contains, IfOk, IfSome, OnOk, OnErr, IsErr, is_ok, if◌then◌else◌};
ghost use Rattle.std.specs.Str.{bytes_eq};
ghost use Rattle.cubit_io.specs.Count.{raised};
ghost use Rattle.cubit_io.specs.Files.{IsBegin, IsRead};
ghost use Rattle.cubit_io.specs.Held.{IsMissing};
ghost use Rattle.cubit_io.specs.MemoryFiles.{bytes_under, index_under};

use crate::count::raised;
use crate::failing_calls::FailingCalls;
use crate::{Failed, Files, Memory};
use std::alloc::Global;
use std::marker::Model;

// A file: its name and its bytes.
#[derive(Drop)]
struct MemoryFile {
    name: String,
    bytes: Vec<u8>,
}

impl Model for MemoryFile {
    ghost use Rattle.std.specs.Prelude.{string_bytes};
    ghost use Rattle.cubit_io.specs.MemoryFile.{MemoryFileValue};

    ghost Value = { MemoryFileValue };

    ghost view = { λ f. record { name = string_bytes f.name; bytes = f.bytes.items } };
}

// A place in a file: the file's index, and how many of its bytes were read.
#[derive(Clone, Copy)]
struct Place {
    file: usize,
    read: usize,
}

/// Files in memory, of which all is told. Calls that are listed fail.
#[derive(Drop)]
pub struct MemoryFiles {
    files: Vec<MemoryFile>,
    place: Option<Place>,
    failing: FailingCalls,
    faults: u64,
}

impl Model for MemoryFiles {
    ghost use Rattle.cubit_io.specs.MemoryFiles.{MemoryFilesValue, left_at, IsWithin};

    ghost Value = { MemoryFilesValue };

    ghost view = { λ m. record {
      files = m.files.items;
      rest = left_at m.files.items m.place;
      fails = m.failing.numbers.items;
      calls = m.failing.calls;
      faults = m.faults;
    } };

    ghost invariant = { λ m. IsWithin m.files.items m.place };
}

impl MemoryFile {
    fn new(alloc: Global, name: &str, bytes: Vec<u8>) -> Result<MemoryFile, Memory>
        ensures { IfOk result (λ file. file ≡ record { name = name.now; bytes = bytes.items }) }
    {
        Ok(MemoryFile {
            name: String::from_str(alloc, name)?,
            bytes,
        })
    }

    // Copies the bytes from a place on, as far as they and the buffer go, and says how many.
    fn copy_from(&self, read: usize, buffer: &mut [u8]) -> usize
        requires { read ≤ length self.now.bytes }
        ensures count { result ≡ min (length self.now.bytes - read) (length buffer.old) }
        ensures copied { take result buffer.new ≡ take result (drop read self.now.bytes) }
        ensures end { result ≡ 0 → 0 < length buffer.old → drop read self.now.bytes ≡ [] }
        ensures fits { read + result ≤ usize.MAX }
    {
        let rest = &self.bytes[read..];
        let count = rest.len().min(buffer.len());
        buffer[..count].copy_from_slice(&rest[..count]);
        count
    }

    fn replace(&mut self, bytes: Vec<u8>)
        ensures { self.new ≡ record self.old { bytes = bytes.items } }
    {
        self.bytes = bytes;
    }

    fn is_named(&self, name: &str) -> bool
        ensures { result ≡ bytes_eq self.now.name name.now }
    {
        self.name.as_str() == name
    }
}

// The index of the first file of this name.
fn index_of(files: &[MemoryFile], name: &str) -> Option<usize>
    ensures first { result ≡ index_under files.now name.now }
    ensures within { IfSome result (λ i. i < length files.now) }
{
    files.iter().position(|file| file.is_named(name))
}

impl MemoryFiles {
    /// No file. `fails` has the numbers of the calls of `begin` and `read` that are to fail, counted together from 1.
    pub fn make(alloc: Global, fails: Vec<u32>) -> MemoryFiles
        ensures { result ≡ record { files = []; rest = []; fails = fails.items; calls = 0; faults = 0 } }
    {
        MemoryFiles {
            files: Vec::new(alloc),
            place: None,
            failing: FailingCalls::new(fails),
            faults: 0,
        }
    }

    /// Adds a file, in the place of one that has its name. No file is chosen afterwards.
    pub fn keep(&mut self, alloc: Global, name: &str, bytes: &[u8]) -> Result<(), Memory>
        ensures kept { OnOk result (bytes_under self.new.files name.now ≡ Some bytes.now) }
        ensures others { (other : List ℕ) → other ≢ name.now
            → bytes_under self.new.files other ≡ bytes_under self.old.files other }
        ensures unchanged { OnErr result (self.new.files ≡ self.old.files) }
        ensures stays { self.new ≡ record self.old { files = self.new.files; rest = [] } }
    {
        self.place = None;
        let bytes = bytes.to_vec(alloc)?;
        match index_of(&self.files, name) {
            Some(index) => self.files[index].replace(bytes),
            None => self.files.push(MemoryFile::new(alloc, name, bytes)?)?,
        }
        Ok(())
    }
}

impl Files for MemoryFiles {
    ghost use Rattle.cubit_io.specs.MemoryFiles.{held_of, rest_of, fault_count};

    ghost held = { held_of };

    ghost rest = { rest_of };

    ghost faults = { fault_count };

    /// It takes no memory. It fails where the call is listed, and at a missing name.
    fn begin(&mut self, name: &str) -> Result<(), Failed>
        ensures is_begin { IsBegin held_of rest_of fault_count name.now self.old self.new result }
        ensures listed { Contains self.new.fails self.new.calls → IsErr result }
        ensures not_listed { OnErr result
            (IsMissing (held_of self.old) name.now ⊎ Contains self.new.fails self.new.calls) }
        ensures number { self.new.calls ≡ raised self.old.calls }
        ensures fails { self.new.fails ≡ self.old.fails }
        ensures quiet { OnOk result (self.new.faults ≡ self.old.faults) }
        ensures no_more { self.new.faults ≤ raised self.old.faults }
    {
        self.place = None;
        let is_listed = self.failing.next_fails();
        let Some(file) = index_of(&self.files, name) else {
            return Err(Failed);
        };
        if is_listed {
            self.faults = raised(self.faults);
            return Err(Failed);
        }
        self.place = Some(Place { file, read: 0 });
        Ok(())
    }

    /// Fills the buffer as far as bytes are left. It fails where the call is listed.
    #[tactic(auto, using(crate::proofs::Names::bytes_at_is))]
    fn read(&mut self, buffer: &mut [u8]) -> Result<usize, Failed>
        ensures is_read { IsRead held_of rest_of fault_count self.old self.new buffer.old buffer.new result }
        ensures count { IfOk result (λ n. n ≡ min (length self.old.rest) (length buffer.old)) }
        ensures listed { Contains self.new.fails self.new.calls → IsErr result }
        ensures not_listed { OnErr result (Contains self.new.fails self.new.calls) }
        ensures number { self.new.calls ≡ raised self.old.calls }
        ensures fails { self.new.fails ≡ self.old.fails }
        ensures faults { self.new.faults ≡ (if is_ok result then self.old.faults else raised self.old.faults) }
    {
        if self.failing.next_fails() {
            self.faults = raised(self.faults);
            return Err(Failed);
        }
        let Some(place) = &mut self.place else {
            return Ok(0);
        };
        let count = self.files[place.file].copy_from(place.read, buffer);
        place.read += count;
        Ok(count)
    }
}

#[cfg(test)]
mod tests {
    use super::*;
    use crate::{ReadStop, read_all};
    use std::test::Fail;

    #[test]
    fn listed_calls_fail(rt: HostRuntime) -> Result<(), Fail> {
        let alloc = rt.alloc();
        let none: [u32; 0] = [];
        for (fails, name, stop, faults) in [
            (none.as_slice(), "kept", None, 0),
            (none.as_slice(), "missing", Some(ReadStop::Fault), 0),
            ([1].as_slice(), "missing", Some(ReadStop::Fault), 0),
            ([1].as_slice(), "kept", Some(ReadStop::Fault), 1),
            ([2].as_slice(), "kept", Some(ReadStop::Fault), 1),
            ([3].as_slice(), "kept", Some(ReadStop::Fault), 1),
            ([4].as_slice(), "kept", None, 0),
        ] {
            let mut files = MemoryFiles::make(alloc, fails.to_vec(alloc)?);
            files.keep(alloc, "kept", b"old")?;
            files.keep(alloc, "kept", b"bytes")?;
            match read_all(alloc, &mut files, name) {
                Ok(bytes) => {
                    assert_eq!(rt; None, stop, "{name} with {fails:?}");
                    assert_eq!(rt; bytes.as_slice(), b"bytes".as_slice());
                }
                Err(got) => assert_eq!(rt; Some(got), stop, "{name} with {fails:?}"),
            }
            assert_eq!(rt; files.faults, faults, "{name} with {fails:?}");
        }
        Ok(())
    }
}
