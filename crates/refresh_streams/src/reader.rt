//! Scripts, and the refresh files that they name.
ghost use Rattle.std.specs.Prelude.{◌≡◌, ◌≢◌, ◌≤◌, ◌<◌, ◌+◌, ◌-◌, [], ◌∷◌, All, length, IfOk, OnOk};
ghost use Rattle.cubit_base.specs.Command.{weight_of};
ghost use Rattle.cubit_io.specs.declared.whole.TheConstants.{FILE_LIMIT};
ghost use Rattle.tbl_text.specs.Lines.{lines_of};
ghost use Rattle.refresh_streams.specs.Script.{weights, DropsSomeOrder};
ghost use Rattle.refresh_streams.specs.Reading.{Asks, line_steps, field_number, insert_says, delete_says, script_says, steps_of_file, script_steps, Reads};
ghost use Rattle.refresh_streams.specs.Makes.{Makes, MakesAlone, MakesFirst, GoesOn, Opened};

use crate::script_line::{Asked, line_asks};
use crate::stop::{bad, fault};
use crate::{Script, ScriptStop};
use cubit_base::Command;
use cubit_io::{Files, ReadStop, read_all};
use std::alloc::Global;
use std::marker::Model;
use tbl_text::{LineFault, first_line, first_order, first_row};

/// The script of this name, with the commands of the refresh files that it names, each read where its line is met. The
/// weights of its commands are at most `room`, which is at most 4,194,304.
pub fn script_of<F: Files>(
    alloc: Global,
    files: &mut F,
    name: &str,
    room: u32,
) -> Result<Script, ScriptStop>
    requires { room ≤ 4_194_304 }

    ensures value { Reads (F.held files.old) (F.faults files.old) (F.faults files.new) name.now room result }

    // Also where it is not told what the files hold.
    ensures weights { IfOk result (λ script. weights script ≤ room) }
    ensures orders { IfOk result (λ script. All DropsSomeOrder script) }

    ensures held { F.held files.new ≡ F.held files.old }
    ensures counted { F.faults files.old ≤ F.faults files.new }
{
    let mut reading = Reading {
        script: Script::new(alloc),
        left: room,
    };
    match reading.add_script_file(alloc, files, name) {
        Ok(()) => Ok(reading.script),
        Err(stop) => Err(stop),
    }
}

// All bytes of the file of this name.
fn read_file<F: Files>(alloc: Global, files: &mut F, name: &str) -> Result<Vec<u8>, ScriptStop>
    ensures value { Opened (F.held files.old) (F.faults files.old) (F.faults files.new) name.now result }
    ensures within { IfOk result (λ bytes. length bytes.items ≤ FILE_LIMIT) }
    ensures held { F.held files.new ≡ F.held files.old }
    ensures counted { F.faults files.old ≤ F.faults files.new }
{
    match read_all(alloc, files, name) {
        Ok(bytes) => Ok(bytes),
        Err(ReadStop::Fault) => Err(fault(alloc, name)),
        Err(ReadStop::TooLong) => Err(bad(alloc, name, 0, 16, 0)),
        Err(ReadStop::Memory) => Err(ScriptStop::Memory),
    }
}

// The number of fields, where that is what is wrong.
fn field_number(fault: LineFault) -> u32
    ensures { result ≡ field_number fault }
{
    match fault {
        LineFault::FieldCount(count) => count,
        _ => 0,
    }
}

// What reading has come to: the commands so far, and the weight that is left for others.
#[derive(Drop)]
struct Reading {
    script: Script,
    left: u32,
}

impl Model for Reading {
    ghost use Rattle.refresh_streams.specs.Reading.{Progress};

    ghost Value = { Progress };

    ghost view = { λ r. record { commands = r.script; left = r.left } };
}

impl Reading {
    // The command that a line of a file asks for.
    fn add(
        &mut self,
        alloc: Global,
        file: &str,
        line: u32,
        command: Command,
    ) -> Result<(), ScriptStop>
        requires few { length self.old.commands < u32.MAX }
        requires order { DropsSomeOrder command }
        ensures value { MakesAlone (Asks file.now line command ∷ []) self.old self.new result }
        ensures goes_on { OnOk result (GoesOn (1 - weight_of command) self.old self.new) }
    {
        let weight = command.weight();
        if weight > self.left {
            return Err(bad(alloc, file, line, 17, 0));
        }
        self.script.push(command)?;
        self.left -= weight;
        Ok(())
    }

    // The insert that the first line of a `lineitem` file asks for. It gives what follows the line.
    fn add_row<'a>(
        &mut self,
        alloc: Global,
        name: &str,
        number: u32,
        bytes: &'a [u8],
    ) -> Result<&'a [u8], ScriptStop>
        requires bytes { bytes.now ≢ [] }
        requires within { length bytes.now ≤ FILE_LIMIT }
        requires few { length self.old.commands < u32.MAX }
        ensures value { MakesFirst (insert_says name.now) number bytes.now self.old self.new result }
        ensures shorter { IfOk result (λ rest. length rest.now < length bytes.now) }
        ensures goes_on { OnOk result (GoesOn 0 self.old self.new) }
    {
        match first_row(bytes) {
            Ok(row) => match self.add(alloc, name, number, Command::Insert(row.0, row.1)) {
                Ok(()) => Ok(row.2),
                Err(stop) => Err(stop),
            },
            Err(fault) => {
                let fields = field_number(fault);
                Err(bad(alloc, name, number, fault.number(), fields))
            }
        }
    }

    // The drop that the first line of a file of deletes asks for. It gives what follows the line.
    fn add_drop<'a>(
        &mut self,
        alloc: Global,
        name: &str,
        number: u32,
        bytes: &'a [u8],
    ) -> Result<&'a [u8], ScriptStop>
        requires bytes { bytes.now ≢ [] }
        requires few { length self.old.commands < u32.MAX }
        ensures value { MakesFirst (delete_says name.now) number bytes.now self.old self.new result }
        ensures shorter { IfOk result (λ rest. length rest.now < length bytes.now) }
        ensures goes_on { OnOk result (GoesOn 0 self.old self.new) }
    {
        let (order, rest) = first_order(bytes);
        match order {
            Some(order) => match self.add(alloc, name, number, Command::DropOrder(order)) {
                Ok(()) => Ok(rest),
                Err(stop) => Err(stop),
            },
            None => Err(bad(alloc, name, number, 15, 0)),
        }
    }

    // The inserts of a `lineitem` file.
    fn add_rows(&mut self, alloc: Global, name: &str, bytes: &[u8]) -> Result<(), ScriptStop>
        requires bytes { length bytes.now ≤ FILE_LIMIT }
        requires few { length self.old.commands + self.old.left < u32.MAX }
        ensures value { MakesAlone (line_steps (insert_says name.now) 1 (lines_of bytes.now)) self.old self.new result }
        ensures goes_on { OnOk result (GoesOn 0 self.old self.new) }
    {
        let mut rest = bytes;
        let mut number = 0;
        while !rest.is_empty() {
            number += 1;
            match self.add_row(alloc, name, number, rest) {
                Ok(others) => rest = others,
                Err(stop) => return Err(stop),
            }
        }
        Ok(())
    }

    // The drops of a file of deletes.
    fn add_drops(&mut self, alloc: Global, name: &str, bytes: &[u8]) -> Result<(), ScriptStop>
        requires bytes { length bytes.now ≤ FILE_LIMIT }
        requires few { length self.old.commands + self.old.left < u32.MAX }
        ensures value { MakesAlone (line_steps (delete_says name.now) 1 (lines_of bytes.now)) self.old self.new result }
        ensures goes_on { OnOk result (GoesOn 0 self.old self.new) }
    {
        let mut rest = bytes;
        let mut number = 0;
        while !rest.is_empty() {
            number += 1;
            match self.add_drop(alloc, name, number, rest) {
                Ok(others) => rest = others,
                Err(stop) => return Err(stop),
            }
        }
        Ok(())
    }

    // The inserts of the `lineitem` file of this name.
    fn add_insert_file<F: Files>(
        &mut self,
        alloc: Global,
        files: &mut F,
        name: &str,
    ) -> Result<(), ScriptStop>
        requires few { length self.old.commands + self.old.left < u32.MAX }
        ensures value { Makes (F.held files.old) (F.faults files.old) (F.faults files.new)
            (λ contents. steps_of_file contents name.now (insert_says name.now)) self.old self.new result }
        ensures goes_on { OnOk result (GoesOn 0 self.old self.new) }
        ensures held { F.held files.new ≡ F.held files.old }
        ensures counted { F.faults files.old ≤ F.faults files.new }
    {
        match read_file(alloc, files, name) {
            Ok(bytes) => self.add_rows(alloc, name, &bytes),
            Err(stop) => Err(stop),
        }
    }

    // The drops of the file of deletes of this name.
    fn add_delete_file<F: Files>(
        &mut self,
        alloc: Global,
        files: &mut F,
        name: &str,
    ) -> Result<(), ScriptStop>
        requires few { length self.old.commands + self.old.left < u32.MAX }
        ensures value { Makes (F.held files.old) (F.faults files.old) (F.faults files.new)
            (λ contents. steps_of_file contents name.now (delete_says name.now)) self.old self.new result }
        ensures goes_on { OnOk result (GoesOn 0 self.old self.new) }
        ensures held { F.held files.new ≡ F.held files.old }
        ensures counted { F.faults files.old ≤ F.faults files.new }
    {
        match read_file(alloc, files, name) {
            Ok(bytes) => self.add_drops(alloc, name, &bytes),
            Err(stop) => Err(stop),
        }
    }

    // What a line of the script asks for.
    fn add_line<F: Files>(
        &mut self,
        alloc: Global,
        files: &mut F,
        name: &str,
        number: u32,
        line: &[u8],
    ) -> Result<(), ScriptStop>
        requires line { length line.now ≤ u32.MAX }
        requires few { length self.old.commands + self.old.left < u32.MAX }
        ensures value { Makes (F.held files.old) (F.faults files.old) (F.faults files.new)
            (λ contents. script_says contents name.now number line.now) self.old self.new result }
        ensures goes_on { OnOk result (GoesOn 1 self.old self.new) }
        ensures held { F.held files.new ≡ F.held files.old }
        ensures counted { F.faults files.old ≤ F.faults files.new }
    {
        match line_asks(line) {
            Ok(Asked::Nothing) => Ok(()),
            Ok(Asked::One(command)) => self.add(alloc, name, number, command),
            Ok(Asked::Inserts(file)) => self.add_insert_file(alloc, files, file),
            Ok(Asked::Deletes(file)) => self.add_delete_file(alloc, files, file),
            Err(fault) => Err(bad(alloc, name, number, fault, 0)),
        }
    }

    // What the script of this name asks for.
    fn add_script_file<F: Files>(
        &mut self,
        alloc: Global,
        files: &mut F,
        name: &str,
    ) -> Result<(), ScriptStop>
        requires few { length self.old.commands + self.old.left ≤ 4_194_304 }
        ensures value { Makes (F.held files.old) (F.faults files.old) (F.faults files.new)
            (λ contents. script_steps contents name.now) self.old self.new result }
        ensures goes_on { OnOk result (GoesOn FILE_LIMIT self.old self.new) }
        ensures held { F.held files.new ≡ F.held files.old }
        ensures counted { F.faults files.old ≤ F.faults files.new }
    {
        match read_file(alloc, files, name) {
            Ok(bytes) => self.add_script(alloc, files, name, &bytes),
            Err(stop) => Err(stop),
        }
    }

    // What the lines of the script ask for.
    fn add_script<F: Files>(
        &mut self,
        alloc: Global,
        files: &mut F,
        name: &str,
        bytes: &[u8],
    ) -> Result<(), ScriptStop>
        requires bytes { length bytes.now ≤ FILE_LIMIT }
        requires few { length self.old.commands + self.old.left ≤ 4_194_304 }
        ensures value { Makes (F.held files.old) (F.faults files.old) (F.faults files.new)
            (λ contents. line_steps (script_says contents name.now) 1 (lines_of bytes.now)) self.old self.new result }
        ensures goes_on { OnOk result (GoesOn (length bytes.now) self.old self.new) }
        ensures held { F.held files.new ≡ F.held files.old }
        ensures counted { F.faults files.old ≤ F.faults files.new }
    {
        let mut rest = bytes;
        let mut number = 0;
        while !rest.is_empty() {
            number += 1;
            let (line, others) = split_line(rest);
            match self.add_line(alloc, files, name, number, line) {
                Ok(()) => rest = others,
                Err(stop) => return Err(stop),
            }
        }
        Ok(())
    }
}

// The first line without its line end, and what follows it.
fn split_line(bytes: &[u8]) -> (&[u8], &[u8])
    requires { bytes.now ≢ [] }
    ensures lines { lines_of bytes.now ≡ result.0.now ∷ lines_of result.1.now }
    ensures shorter { length result.1.now < length bytes.now }
    ensures within { length result.0.now ≤ length bytes.now }
{
    let Some(line) = first_line(bytes) else {
        unreachable!()
    };
    (&bytes[..line.len], &bytes[line.next..])
}

#[cfg(test)]
mod tests;
