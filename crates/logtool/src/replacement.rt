// A file whose bytes are replaced all at once.
use crate::failure::Failure;
use std::fs::{File, OpenOptions};
use std::io::Write;
use std::{fs, io};

// A file that does not exist yet, to be written.
pub(crate) fn create_new(rt: &HostRuntime, path: &str) -> io::Result<File> {
    let mut options = OpenOptions::new();
    options.write(true).create_new(true);
    options.open(rt, path)
}

// Puts the bytes in the place of a file's: they are written to a new file beside it, which then takes its name.
// Where that fails the file is as it was, and the new one is gone.
pub(crate) fn replace_file(rt: &HostRuntime, path: &str, bytes: &[u8]) -> Result<(), Failure> {
    let beside = format!(in rt.alloc(); "{path}.new")?;
    let file = create_new(rt, beside.as_str()).map_err(Failure::Replacement)?;
    let Err(error) = fill_and_rename(rt, file, bytes, beside.as_str(), path) else {
        return Ok(());
    };
    let _ = fs::remove_file(rt, beside.as_str());
    Err(Failure::Replacement(error))
}

// Writes the new file to the disk, and only then gives it the name.
fn fill_and_rename(
    rt: &HostRuntime,
    mut file: File,
    bytes: &[u8],
    beside: &str,
    path: &str,
) -> io::Result<()> {
    file.write_all(bytes)?;
    file.sync_all()?;
    fs::rename(rt, beside, path)
}
