//! The laws of the texts of logs.
ghost use Rattle.ivy_logs.specs.ReadBack.{LogsReadBack, LogsSpellOne};

/// It does nothing. Its contract says that what is written of a log is read as that log, and as no other one: the line
/// of its head and those of its entries are the text of a log of these, and a text is that of one log at most.
pub fn logs_read_back()
    ensures back { LogsReadBack }
    ensures once { LogsSpellOne }
{}
