// How far the run of a script has come.
use disk_slab::Live;
use store::LogStore;

// Linear, as the slab is.
pub enum Stage<S: LogStore> {
    // No line has been answered.
    Fresh(S),
    // The first line was refused.
    Refused(S),
    // The first line made this slab.
    Serving(Live<S>),
}
