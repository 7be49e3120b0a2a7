// What takes the lines of a script.
ghost use Rattle.std.specs.Prelude.{IsSome};

use crate::stage::Stage;
use store::LogStore;

pub struct Console<S: LogStore> {
    // None stands only while a call changes it.
    pub(crate) stage: Option<Stage<S>>,
    ghost standing: { IsSome stage },
}
