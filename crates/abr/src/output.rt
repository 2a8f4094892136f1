//! Files that an output is written to: whole, or not at all.

use abr_cli::{CommandFault, say_fault};
use std::fs::{File, OpenOptions};
use std::io::{Stderr, Write};
use std::path::PathBuf;
use std::{fs, io};

// The number of names that are tried for a new file.
const MOST_TRIALS: u32 = 100;

/// A file by the name that was given, opened at the first write.
///
/// If it is a regular file, or there is none, a new file is written in the same folder. It replaces
/// the old file once the output is whole, and until then the old file is unchanged. A symbolic link
/// is followed, and stays. A device or a pipe is written to directly, and so is the target of a
/// link if it does not exist.
#[derive(Drop)]
pub struct Output<'a> {
    rt: &'a HostRuntime,
    name: &'a str,
    opened: Option<Opened>,
}

// The open output.
#[derive(Drop)]
enum Opened {
    // A file that is written to directly.
    Direct(File),
    Beside(Beside),
}

// A new file, its name, and the name of the file that it replaces, in one folder.
#[derive(Drop)]
struct Beside {
    file: File,
    name: String,
    target: PathBuf,
}

impl<'a> Output<'a> {
    /// Creates the output. Nothing is opened yet.
    pub fn new(rt: &'a HostRuntime, name: &'a str) -> Output<'a> {
        Output {
            rt,
            name,
            opened: None,
        }
    }

    /// Ends the writing, and returns the status.
    ///
    /// If the status is 0, a new file replaces the old one, or else it is removed. If it cannot
    /// replace the old one, a line on `faults` says so.
    pub fn end(self, status: u8, faults: &mut Stderr) -> u8 {
        let Output { rt, name, opened } = self;
        match opened {
            None => status,
            Some(Opened::Direct(_file)) => status,
            Some(Opened::Beside(beside)) => match beside.end(rt, status == 0) {
                Ok(()) => status,
                Err(_) => say_fault(rt.alloc(), CommandFault::WriteTo(name), faults),
            },
        }
    }
}

impl Write for Output<'_> {
    fn write(&mut self, bytes: &[u8]) -> io::Result<usize> {
        if self.opened.is_none() {
            self.opened = Some(open(self.rt, self.name)?);
        }
        match &mut self.opened {
            Some(Opened::Direct(file)) => file.write(bytes),
            Some(Opened::Beside(beside)) => beside.file.write(bytes),
            None => Err(io::Error::from(io::ErrorKind::NotFound)),
        }
    }

    fn flush(&mut self) -> io::Result<()> {
        Ok(())
    }
}

// Opens the output.
fn open(rt: &HostRuntime, name: &str) -> io::Result<Opened> {
    if is_stream(name) {
        return Ok(Opened::Direct(open_direct(rt, name, false)?));
    }
    match fs::metadata(rt, name) {
        Ok(old) if old.is_file() => {
            // This fails for a file that may not be written, so such a file is not replaced.
            open_direct(rt, name, false)?;
            let beside = Beside::create(rt, fs::canonicalize(rt, name)?)?;
            beside.file.set_permissions(old.permissions())?;
            Ok(Opened::Beside(beside))
        }
        Ok(_) => Ok(Opened::Direct(open_direct(rt, name, false)?)),
        Err(error) if error.kind() != io::ErrorKind::NotFound => Err(error),
        Err(_) if fs::symlink_metadata(rt, name).is_ok() => Ok(Opened::Direct(open_direct(
            rt, name, true,
        )?)),
        Err(_) => {
            let target = PathBuf::from_str(rt.alloc(), name)?;
            Ok(Opened::Beside(Beside::create(rt, target)?))
        }
    }
}

// Returns true if the name is a name of an open file of this process or of another, whatever the
// file is.
fn is_stream(name: &str) -> bool {
    name.starts_with("/dev/std") || name.starts_with("/dev/fd/") || name.starts_with("/proc/")
}

// Opens the file to append to its contents.
fn open_direct(rt: &HostRuntime, name: &str, creates: bool) -> io::Result<File> {
    OpenOptions::new()
        .append(true)
        .create(creates)
        .open(rt, name)
}

impl Beside {
    // Creates a new file in the folder of the target. Its name is the name of the target with
    // `.part` appended, or `.part2` and so on if that is taken.
    fn create(rt: &HostRuntime, target: PathBuf) -> io::Result<Beside> {
        for trial in 1..=MOST_TRIALS {
            let name = part_name(rt, target.as_str(), trial)?;
            match File::create_new(rt, name.as_str()) {
                Ok(file) => return Ok(Beside { file, name, target }),
                Err(error) if error.kind() == io::ErrorKind::AlreadyExists => {}
                Err(error) => return Err(error),
            }
        }
        Err(io::Error::from(io::ErrorKind::AlreadyExists))
    }

    // Replaces the target by the file once the system has it on its disk, or removes the file.
    fn end(self, rt: &HostRuntime, is_whole: bool) -> io::Result<()> {
        let Beside { file, name, target } = self;
        if is_whole {
            let placed = place(rt, &file, name.as_str(), target.as_str());
            if placed.is_err() {
                remove(rt, name.as_str());
            }
            return placed;
        }
        remove(rt, name.as_str());
        Ok(())
    }
}

fn place(rt: &HostRuntime, file: &File, name: &str, target: &str) -> io::Result<()> {
    file.sync_all()?;
    fs::rename(rt, name, target)
}

// Removes a file that is not whole. If that fails, it stays under its name, and nothing is lost.
fn remove(rt: &HostRuntime, name: &str) {
    if fs::remove_file(rt, name).is_err() {}
}

fn part_name(rt: &HostRuntime, target: &str, trial: u32) -> io::Result<String> {
    if trial == 1 {
        Ok(format!(in rt.alloc(); "{target}.part")?)
    } else {
        Ok(format!(in rt.alloc(); "{target}.part{trial}")?)
    }
}
