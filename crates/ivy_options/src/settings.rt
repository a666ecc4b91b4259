//! The options of each command that runs programs: how many pages, their size, and how their owners are found.

use crate::given::Given;
use crate::table::{Bounds, CommandOption, Value};
use ivy_model::{Kind, LEAST_PAGES, MOST_PAGES};

/// How many pages there are.
pub const PAGES: CommandOption = CommandOption {
    name: "--pages",
    value: Value::Number {
        missing: Some(16),
        bounds: Bounds {
            least: LEAST_PAGES as u64,
            most: MOST_PAGES as u64,
        },
    },
    about: "how many pages there are, 2 to 256",
};

/// The size of a page.
pub const PAGE_SIZE: CommandOption = CommandOption {
    name: "--page-size",
    value: Value::Power {
        missing: Some(256),
        bounds: Bounds {
            least: 64,
            most: 4_096,
        },
    },
    about: "bytes of a page, a power of two from 64 to 4096",
};

/// How the owner of a page is found.
pub const MANAGER: CommandOption = CommandOption {
    name: "--manager",
    value: Value::Manager,
    about: "how the owner of a page is found",
};

impl Given<'_> {
    /// How the owner of a page is found, as a configuration names it: steady hints are dynamic there.
    pub fn manager(&self) -> Kind {
        match self.word("--manager") {
            Some("fixed") => Kind::Fixed,
            _ => Kind::Dynamic,
        }
    }

    /// Whether nodes begin with steady hints, in place of the manager that their configuration names.
    pub fn is_steady(&self) -> bool {
        self.word("--manager") == Some("steady")
    }
}
