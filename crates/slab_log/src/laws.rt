// The laws of logs. Each function does nothing: its contract is the law.
ghost use Rattle.slab_log.specs.Laws.{ReadingUndoesWriting, CondensedIsShortest, CondensedReplays, CondensedIsUnique, CondensedExists, EqualCondensedEqualSectors, GrantReplays, ReturnReplays};
ghost use Rattle.slab_log.specs.Cases.{AllHold, table};

pub fn reading_undoes_writing()
    ensures { ReadingUndoesWriting }
{}

pub fn condensed_log_is_shortest()
    ensures { CondensedIsShortest }
{}

pub fn condensed_log_replays()
    ensures { CondensedReplays }
{}

pub fn condensed_log_is_unique()
    ensures { CondensedIsUnique }
{}

pub fn condensed_log_exists()
    ensures { CondensedExists }
{}

pub fn equal_condensed_logs_have_equal_sectors()
    ensures { EqualCondensedEqualSectors }
{}

pub fn grant_replays()
    ensures { GrantReplays }
{}

pub fn return_replays()
    ensures { ReturnReplays }
{}

// Ten worked cases, as rows of one table.
pub fn worked_cases_hold()
    ensures { AllHold table }
{}
