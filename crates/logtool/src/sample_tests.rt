// Tests of what audit and condense print and write, on the sample's image.
use crate::failure::Failure;
use crate::files::{condense_file, write_new};
use crate::listing::{write_audit, write_header, write_words};
use crate::sample::sample_image;
use crate::slabs::audit_log;
use slab_log::Size;
use std::fs;
use std::test::Fail;
use store::{ImageStore, check};

// Of 50,000 sectors 0 to 9, 30 to 34 and 50 to 40,049 are in use.
const AUDIT: &str = "allocating words 3
freeing words 1
debug words 1
free sectors 9985
free extents 3
longest free extent 9950
words 5
condensed words 4
";

const CONDENSED: &str = "count 4
capacity 11
first word at byte 16
places end at byte 104
0: allocate 10 from 0 (0x0000000000000009)
1: allocate 5 from 30 (0x00000000001E0004)
2: allocate 32768 from 50 (0x0000000000327FFF)
3: allocate 7232 from 32818 (0x0000000080321C3F)
";

#[test]
fn an_audit_has_a_line_for_each_figure(rt: HostRuntime) -> Result<(), Fail> {
    let mut image = sample_image(&rt)?;
    let audit = audit_log(ImageStore::attach(&mut image), Size::new(50_000)?)?;
    let mut out = Vec::new(rt.alloc());
    write_audit(&mut out, audit)?;
    assert_eq!(rt; out.as_slice(), AUDIT.as_bytes());
    Ok(())
}

// Makes a file of the sample's image, and condenses it at a size.
fn condense_sample(rt: &HostRuntime, path: &str, sectors: u64) -> Result<(), Failure> {
    let _ = fs::remove_file(rt, path);
    let image = sample_image(rt)?;
    write_new(rt, path, &image)?;
    condense_file(rt, path, sectors)
}

#[test]
fn condensing_changes_the_log_of_a_file_and_no_other_byte(rt: HostRuntime) -> Result<(), Fail> {
    let path = "condensed.log";
    condense_sample(&rt, path, 50_000)?;
    let mut image = fs::read(&rt, path)?;
    fs::remove_file(&rt, path)?;
    let before = sample_image(&rt)?;
    assert_eq!(rt; image.len(), before.len());
    assert_eq!(rt; image.get(48..), before.get(48..), "behind the fourth word");
    let mut out = Vec::new(rt.alloc());
    write_header(&mut out, check(&image)?)?;
    write_words(&mut out, &ImageStore::attach(&mut image))?;
    assert_eq!(rt; out.as_slice(), CONDENSED.as_bytes());
    Ok(())
}

#[test]
fn a_log_with_a_fault_is_not_condensed(rt: HostRuntime) -> Result<(), Fail> {
    let path = "faulty.log";
    let Err(failure) = condense_sample(&rt, path, 40) else {
        return Err("it was condensed")?;
    };
    let image = fs::read(&rt, path)?;
    fs::remove_file(&rt, path)?;
    assert_eq!(rt; image.as_slice(), sample_image(&rt)?.as_slice());
    assert!(rt; !fs::exists(&rt, "faulty.log.new")?, "a new file is left");
    let text = failure.to_string(rt.alloc())?;
    assert_eq!(rt;
        text.as_str(),
        "refusal 3: the slab is stopped by the fault bounds of the word at place 1"
    );
    Ok(())
}
