//! What a command line asks of programs.

use ivy_options::Given;
use ivy_texts::Settings;
use ivy_workers::Limits;

/// What is to be seen of a run.
#[derive(Clone, Copy)]
pub enum Showing {
    /// Its moves.
    Schedule,
    /// Those of them that are needed for what is printed.
    Shortest,
    /// The order of records that explains it.
    Order,
    /// Its picture.
    Chart,
    /// Its faults, hits and messages.
    Counts,
    /// The same under both managers.
    Both,
    /// What each of its moves did.
    Trace,
    /// The same, as one object a line.
    Objects,
}

/// What is to be done with programs.
#[derive(Clone, Copy)]
pub enum Task {
    /// A session.
    Run,
    /// Something of a run that is played.
    Show(Showing),
    /// All orders of moves.
    Search,
    /// Drawn moves, and then a standstill.
    Settle,
}

/// What is printed of a session beside the outputs, and whether it ends at the first call that is refused.
#[derive(Clone, Copy)]
pub struct Wishes<'a> {
    pub strict: bool,
    pub history: bool,
    pub counts: bool,
    /// The folder that takes the nodes' logs.
    pub logs: Option<&'a str>,
}

/// What is to be done with programs, and the texts of the files that it needs.
#[derive(Drop)]
pub struct ScopeRequest<'a> {
    pub(crate) given: Given<'a>,
    pub(crate) programs: String,
    pub(crate) schedule: Option<String>,
}

impl<'a> ScopeRequest<'a> {
    /// The text of the programs, which is no fault.
    pub fn programs(&self) -> &str {
        self.programs.as_str()
    }

    /// The text of the schedule, where there is one. It is no fault.
    pub fn schedule(&self) -> Option<&str> {
        match &self.schedule {
            Some(text) => Some(text.as_str()),
            None => None,
        }
    }

    /// The number of an option, or 0.
    fn number(&self, name: &str) -> u64 {
        self.given.number(name).unwrap_or(0)
    }

    /// What is to be seen of a run.
    fn view(&self) -> Showing {
        match self.given.command().name {
            "schedule" if self.given.has("--shortest") => Showing::Shortest,
            "schedule" => Showing::Schedule,
            "chart" => Showing::Chart,
            "counts" if self.given.has("--both") => Showing::Both,
            "counts" => Showing::Counts,
            "trace" if self.given.has("--json") => Showing::Objects,
            "trace" => Showing::Trace,
            _ => Showing::Order,
        }
    }

    /// What is to be done.
    pub fn task(&self) -> Task {
        match self.given.command().name {
            "run" => Task::Run,
            "search" => Task::Search,
            "settle" => Task::Settle,
            _ => Task::Show(self.view()),
        }
    }

    /// The pages, their size and the manager that the options name.
    pub fn settings(&self) -> Settings {
        Settings {
            pages: self.number("--pages"),
            page_size: self.number("--page-size"),
            manager: self.given.manager(),
        }
    }

    /// Whether nodes begin with steady hints, in place of the manager of the settings.
    pub fn is_steady(&self) -> bool {
        self.given.is_steady()
    }

    /// The seed and the number of drawn moves.
    pub fn drawn(&self) -> (u64, u64) {
        (self.number("--seed"), self.number("--moves"))
    }

    /// The page whose access a picture shows, where one is named.
    pub fn page(&self) -> Option<u64> {
        self.given.number("--page")
    }

    /// The numbers of the first and the last move of which a picture is drawn, from 1.
    pub fn range(&self) -> (u64, u64) {
        let last = self.given.number("--to").unwrap_or(u64::MAX);
        (self.number("--from"), last)
    }

    /// Whether a picture has all that came.
    pub fn draws_all(&self) -> bool {
        self.given.has("--all")
    }

    /// How many states are looked at, at most.
    pub fn states(&self) -> u64 {
        self.number("--states")
    }

    /// What a search looks for, where that is given.
    pub fn until(&self) -> Option<&'a str> {
        self.given.word("--until")
    }

    /// The limits of a session that the options name.
    pub fn limits(&self) -> Limits {
        Limits {
            capacity: self.number("--capacity"),
            turns: self.number("--turns"),
            pulse_every: self.number("--pulse"),
        }
    }

    /// What else a session is to tell.
    pub fn wishes(&self) -> Wishes<'a> {
        Wishes {
            strict: self.given.has("--strict"),
            history: self.given.has("--history"),
            counts: self.given.has("--counts"),
            logs: self.given.word("--logs"),
        }
    }
}
