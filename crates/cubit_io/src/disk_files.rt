//! The files of the outside. What they hold is not told; only how often they failed.
ghost use Rattle.std.specs.Prelude.{◌≡◌, [], Some, Ok, false, is_ok, if◌then◌else◌};
ghost use Rattle.std.specs.Io.KnownBytes.{ReadConsumes};
ghost use Rattle.cubit_io.specs.Count.{raised};
ghost use Rattle.cubit_io.specs.DiskFiles.{nothing_told, fault_count};
ghost use Rattle.cubit_io.specs.Files.{IsBegin, IsRead};

use crate::count::raised;
use crate::{Failed, Files};
use std::fs;
use std::io::Read;
use std::marker::Model;
use std::rt::Files as HostFiles;

/// Reads the files of the runtime.
#[derive(Drop)]
pub struct DiskFiles<R: HostFiles> {
    rt: R,
    chosen: Option<R::File>,
    faults: u64,
}

impl<R: HostFiles> Model for DiskFiles<R> {
    ghost use Rattle.std.specs.Prelude.{is_some};
    ghost use Rattle.cubit_io.specs.DiskFiles.{DiskFilesValue, remaining_of};

    ghost Value = { DiskFilesValue };

    ghost view = { λ d. record {
      has_chosen = is_some d.chosen;
      remaining = remaining_of R.File.remaining d.chosen;
      faults = d.faults;
    } };
}

impl<R: HostFiles> DiskFiles<R> {
    /// The runtime's files, of which none is chosen.
    pub fn make(rt: R) -> DiskFiles<R>
        ensures { result ≡ record { has_chosen = false; remaining = Some []; faults = 0 } }
    {
        DiskFiles {
            rt,
            chosen: None,
            faults: 0,
        }
    }
}

impl<R: HostFiles> Files for DiskFiles<R> {
    ghost held = { nothing_told };

    ghost rest = { nothing_told };

    ghost faults = { fault_count };

    /// Opens a file. It lets go of one that was chosen before, also where it fails.
    fn begin(&mut self, name: &str) -> Result<(), Failed>
        ensures is_begin { IsBegin nothing_told nothing_told fault_count name.now self.old self.new result }
        ensures opened { self.new.has_chosen ≡ is_ok result }
        ensures faults { self.new.faults ≡ (if is_ok result then self.old.faults else raised self.old.faults) }
    {
        self.chosen = None;
        match fs::open(&self.rt, name) {
            Ok(file) => {
                self.chosen = Some(file);
                Ok(())
            }
            Err(_) => {
                self.faults = raised(self.faults);
                Err(Failed)
            }
        }
    }

    /// Reads on in the chosen file.
    fn read(&mut self, buffer: &mut [u8]) -> Result<usize, Failed>
        ensures is_read { IsRead nothing_told nothing_told fault_count self.old self.new buffer.old buffer.new result }

        // It gives what the runtime's file gives.
        ensures passed_on { ReadConsumes self.old.remaining self.new.remaining result buffer.new }
        ensures none_chosen { self.old.has_chosen ≡ false → result ≡ Ok 0 }
        ensures chosen { self.new.has_chosen ≡ self.old.has_chosen }
        ensures faults { self.new.faults ≡ (if is_ok result then self.old.faults else raised self.old.faults) }
    {
        let Some(file) = &mut self.chosen else {
            return Ok(0);
        };
        match file.read(buffer) {
            Ok(count) => Ok(count),
            Err(_) => {
                self.faults = raised(self.faults);
                Err(Failed)
            }
        }
    }
}

#[cfg(test)]
mod tests {
    use super::*;
    use crate::{ReadStop, read_all};
    use std::test::Fail;
    use std::{env, process};

    #[test]
    fn a_file_and_none(rt: HostRuntime) -> Result<(), Fail> {
        let alloc = rt.alloc();
        let folder = env::temp_dir(&rt)?;
        let id = process::id(rt.process());
        let name = format!(in alloc; "{}/cubit_io_{id}", folder.display())?;
        fs::write(&rt, name.as_str(), "a line\n")?;
        let mut files = DiskFiles::make(&rt);
        let bytes = read_all(alloc, &mut files, name.as_str());
        fs::remove_file(&rt, name.as_str())?;
        assert_eq!(rt; bytes?.as_slice(), b"a line\n".as_slice());
        assert_eq!(rt; files.faults, 0);
        assert_eq!(rt;
            read_all(alloc, &mut files, name.as_str()).err(),
            Some(ReadStop::Fault)
        );
        assert_eq!(rt; files.faults, 1);
        Ok(())
    }
}
