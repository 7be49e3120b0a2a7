// Images in files.
use crate::failure::Failure;
use crate::listing::{write_audit, write_header, write_words};
use crate::replacement::{create_new, replace_file};
use crate::slabs::{audit_log, condense_log};
use slab_log::Size;
use std::fs;
use std::io::{BufWriter, Write};
use store::{HEADER_BYTES, Header, ImageStore, check, format};

// Writes a file that does not exist yet.
pub(crate) fn write_new(rt: &HostRuntime, path: &str, bytes: &[u8]) -> Result<(), Failure> {
    let mut file = create_new(rt, path).map_err(Failure::File)?;
    file.write_all(bytes).map_err(Failure::File)
}

// The header of an image's bytes.
fn header_of(bytes: &[u8]) -> Result<Header, Failure> {
    if bytes.len() < HEADER_BYTES {
        return Err(Failure::ShortImage);
    }
    Ok(check(bytes)?)
}

// The bytes of a file, and the header that they begin with.
fn read_image(rt: &HostRuntime, path: &str) -> Result<(Vec<u8>, Header), Failure> {
    let image = fs::read(rt, path).map_err(Failure::File)?;
    let header = header_of(&image)?;
    Ok((image, header))
}

// Makes a file of so many bytes, with the header of an empty log.
pub(crate) fn format_file(rt: &HostRuntime, path: &str, bytes: usize) -> Result<(), Failure> {
    if bytes < HEADER_BYTES {
        return Err(Failure::ShortImage);
    }
    let mut image = Vec::from_elem(rt.alloc(), 0u8, bytes)?;
    format(&mut image)?;
    write_new(rt, path, &image)?;
    let header = header_of(&image)?;
    write_header(&mut rt.stdout(), header)
}

// Tells the header's figures, where the header is in order.
pub(crate) fn check_file(rt: &HostRuntime, path: &str) -> Result<(), Failure> {
    let (_, header) = read_image(rt, path)?;
    rt.println("the header is in order")?;
    write_header(&mut rt.stdout(), header)
}

// Lists the image of a file. The output goes through a buffer of fixed size.
pub(crate) fn list_file(rt: &HostRuntime, path: &str) -> Result<(), Failure> {
    let (mut image, header) = read_image(rt, path)?;
    let mut out = BufWriter::new(rt.alloc(), rt.stdout())?;
    write_header(&mut out, header)?;
    let store = ImageStore::attach(&mut image);
    write_words(&mut out, &store)?;
    out.flush()?;
    Ok(())
}

// Tells what the log of a file holds at a size, where it has no fault.
pub(crate) fn audit_file(rt: &HostRuntime, path: &str, sectors: u64) -> Result<(), Failure> {
    let (mut image, _) = read_image(rt, path)?;
    let size = Size::new(sectors)?;
    let audit = audit_log(ImageStore::attach(&mut image), size)?;
    write_audit(&mut rt.stdout(), audit)
}

// Replaces the log of a file with the condensed log at a size. A refusal leaves the file as it is.
pub(crate) fn condense_file(rt: &HostRuntime, path: &str, sectors: u64) -> Result<(), Failure> {
    let (mut image, _) = read_image(rt, path)?;
    let size = Size::new(sectors)?;
    let (store, answer) = condense_log(ImageStore::attach(&mut image), size);
    let words = answer?;
    replace_file(rt, path, store.detach())?;
    println!(rt; "words {words}")?;
    Ok(())
}
