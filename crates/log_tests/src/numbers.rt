// The number of each refusal, with the values that some carry.
use slab_log::{Fault, Refusal, Stop};

#[test]
fn refusals_in_order(rt: HostRuntime) {
    let stop = Stop {
        fault: Fault::Taken,
        place: 7,
    };
    assert_eq!(rt; Refusal::BadSize.number(), 1);
    assert_eq!(rt; Refusal::BadExtent.number(), 2);
    assert_eq!(rt; Refusal::Stopped(stop).number(), 3);
    assert_eq!(rt; Refusal::NoWant.number(), 4);
    assert_eq!(rt; Refusal::BeyondSlab.number(), 5);
    assert_eq!(rt; Refusal::NoSpace.number(), 6);
    assert_eq!(rt; Refusal::AlreadyFree.number(), 7);
    assert_eq!(rt; Refusal::TooManyExtents.number(), 8);
}

#[test]
fn refusals_of_logs_areas_and_lines(rt: HostRuntime) {
    assert_eq!(rt;
        Refusal::LogFull {
            places: 2,
            needed: 3,
        }
        .number(),
        9
    );
    assert_eq!(rt; Refusal::StoreFull.number(), 9);
    assert_eq!(rt; Refusal::AreaShort.number(), 10);
    assert_eq!(rt; Refusal::NoWord.number(), 10);
    assert_eq!(rt; Refusal::BadHeader.number(), 11);
    assert_eq!(rt; Refusal::BadLine.number(), 12);
}
