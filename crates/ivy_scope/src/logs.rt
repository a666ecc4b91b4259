//! The logs of a session's nodes, as nodes in processes of their own write them.

use ivy_explain::ScopeFailure;
use ivy_logs::{LogHead, push_log_of_run};
use ivy_model::{Config, Fault};
use ivy_standstill::ReportSoFar;
use ivy_texts::FilesOf;
use std::alloc::Global;
use std::fs;
use std::io::ErrorKind;
use std::rt::Files;

/// What takes the logs of nodes.
pub trait Logs {
    /// Writes the log of a node into a folder. It says whether the folder takes it. 1 where a growth was refused.
    fn write_log(&self, folder: &str, node: u64, text: &str) -> Result<bool, Fault>;
}

impl<R: Files + AllocGlobal> Logs for FilesOf<'_, R> {
    fn write_log(&self, folder: &str, node: u64, text: &str) -> Result<bool, Fault> {
        let name = format!(in self.runtime.alloc(); "{folder}/{node}.log")?;
        match fs::write(self.runtime, name.as_str(), text) {
            Ok(()) => Ok(true),
            Err(error) => match error.kind() {
                ErrorKind::OutOfMemory => Err(Fault::Memory),
                _ => Ok(false),
            },
        }
    }
}

/// Writes the logs of a session's nodes into a folder, with the sum of its configuration and programs.
pub(crate) fn write_logs<'a, L: Logs>(
    alloc: Global,
    (config, steady, sum): (Config, bool, u64),
    report: &ReportSoFar<Global>,
    logs: &L,
    folder: &'a str,
) -> Result<(), ScopeFailure<'a>> {
    for node in 0..report.nodes() {
        let head = LogHead {
            me: node.min(255) as u8,
            config,
            steady,
        };
        let mut text = String::new(alloc);
        push_log_of_run(alloc, &mut text, &head, sum, report.events(node))?;
        if !logs.write_log(folder, node, text.as_str())? {
            return Err(ScopeFailure::NoFolder(folder));
        }
    }
    Ok(())
}
