// What is printed of faults and refusals.
use slab_log::{Fault, Refusal, Stop};
use std::fmt::Display;
use std::process::Abort;
use std::test::Fail;

// Whether a value is printed as this text.
fn prints<T: Display + Drop>(rt: &(impl Abort + Alloc), value: T, text: &str) -> Result<(), Fail> {
    let printed = value.to_string(rt.alloc())?;
    assert_eq!(rt; printed.as_str(), text);
    Ok(())
}

#[test]
fn faults(rt: HostRuntime) -> Result<(), Fail> {
    prints(&rt, Fault::Kind, "kind")?;
    prints(&rt, Fault::Bounds, "bounds")?;
    prints(&rt, Fault::Taken, "taken")?;
    prints(&rt, Fault::Again, "again")?;
    prints(&rt, Fault::Crowded, "crowded")
}

#[test]
fn refusals_with_what_they_carry(rt: HostRuntime) -> Result<(), Fail> {
    let stop = Stop {
        fault: Fault::Taken,
        place: 7,
    };
    prints(&rt, stop, "fault taken of the word at place 7")?;
    prints(
        &rt,
        Refusal::Stopped(stop),
        "the slab is stopped by the fault taken of the word at place 7",
    )?;
    let full = Refusal::LogFull {
        places: 2,
        needed: 3,
    };
    prints(&rt, full, "the log has 2 places left, and needs 3")?;
    prints(&rt, Refusal::BadHeader, "the header is against the rule")
}
