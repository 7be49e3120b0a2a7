// The states of a slab. Cold and live slabs own their store; both end by `close`, which gives the store back.
ghost use Rattle.std.specs.Prelude.{◌≡◌};
ghost use Rattle.disk_slab.specs.Loaded.{Sized, Replayed};

use slab_log::{Size, Stop};
use space::Space;
use store::LogStore;

// A slab whose log has not been replayed.
pub struct Cold<S: LogStore> {
    pub(crate) store: S,
    pub(crate) size: Size,
}

// A slab that has been loaded: its free sectors, to which its log replays, or the fault of the log that has stopped it.
pub struct Live<S: LogStore> {
    pub(crate) store: S,
    pub(crate) size: Size,
    pub(crate) space: Result<Space, Stop>,
    ghost sized: { Sized size space },
    ghost sound: { Replayed size space (S.words store) },
}
