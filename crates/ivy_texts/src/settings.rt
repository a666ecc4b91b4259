//! The configuration that a command line asks for.
ghost use Rattle.std.specs.Prelude.{◌≡◌, IfOk, IsOk, IsOkUnless};
ghost use Rattle.ivy_model.specs.stated.Config.{IsConfig, IsNarrow};

use ivy_model::{Config, Fault, Kind};

/// The configuration that a command line asks for, but for the number of nodes.
#[derive(Clone, Copy, Debug, PartialEq, Eq)]
pub struct Settings {
    /// How many pages there are.
    pub pages: u64,
    /// Bytes of a page.
    pub page_size: u64,
    /// How the owner of a page is found.
    pub manager: Kind,
}

impl Settings {
    /// The configuration of so many nodes. 2 exactly where it is out of the narrow limits.
    pub fn config(&self, nodes: usize) -> Result<Config, Fault>
        ensures limits { IfOk result IsConfig }
        ensures narrow { IfOk result IsNarrow }
        ensures shown { IfOk result (λ c. c ≡ record { nodes = nodes; pages = self.now.pages; page_size = self.now.page_size; manager = self.now.manager }) }
        ensures accepted { IsNarrow (record { nodes = nodes; pages = self.now.pages; page_size = self.now.page_size; manager = self.now.manager }) → IsOk result }
        ensures refused { IsOkUnless result Fault.BadConfig }
    {
        let config = Config {
            nodes: u8::try_from(nodes).map_err(|_| Fault::BadConfig)?,
            pages: u32::try_from(self.pages).map_err(|_| Fault::BadConfig)?,
            page_size: u32::try_from(self.page_size).map_err(|_| Fault::BadConfig)?,
            manager: self.manager,
        };
        config.check()?;
        Ok(config)
    }
}
