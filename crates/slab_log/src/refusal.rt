// Every refusal of the product.
use crate::fault::Stop;
use thiserror::Error;

#[derive(Clone, Copy, PartialEq, Eq, Debug, Error)]
pub enum Refusal {
    // 1
    #[error("the size is 0, or above 67108864 sectors")]
    BadSize,
    // 2
    #[error("the extent has no sector, or ends past sector 67108864")]
    BadExtent,
    // 3
    #[error("the slab is stopped by the {0}")]
    Stopped(Stop),
    // 4
    #[error("no sector is wanted")]
    NoWant,
    // 5
    #[error("the extent ends beyond the slab")]
    BeyondSlab,
    // 6
    #[error("no free extent is long enough")]
    NoSpace,
    // 7
    #[error("a sector of the extent is free already")]
    AlreadyFree,
    // 8
    #[error("there are too many free extents")]
    TooManyExtents,
    // 9: the places left, and the entries needed.
    #[error("the log has {places} places left, and needs {needed}")]
    LogFull { places: usize, needed: usize },
    // 9
    #[error("the log is full")]
    StoreFull,
    // 10
    #[error("the area is too short")]
    AreaShort,
    // 10
    #[error("the log has no such word")]
    NoWord,
    // 11
    #[error("the header is against the rule")]
    BadHeader,
    // 12
    #[error("the line is against its form")]
    BadLine,
}
