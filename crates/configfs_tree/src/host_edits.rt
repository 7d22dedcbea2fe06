// Edits of hosts, each by its rows of the table.
ghost use Rattle.std.specs.Prelude.{true};
ghost use Rattle.configfs_tree.specs.Gives.{Gives, GivesErrno};
ghost use Rattle.configfs_tree.specs.Table.{mkdir_host, rmdir_host};

use crate::configuration::Configuration;
use crate::edits::{Change, Errno, Refused, Touched};
use configfs_rows::{MAX_HOSTS, Nqn};

impl Configuration {
    #[tactic(auto, unfolding(crate::specs::Table::mkdir_host, crate::specs::Outcome::first_of))]
    pub(crate) fn mkdir_host(&mut self, host: &Nqn) -> Result<Change, Refused>
        ensures { Gives true (mkdir_host self.old host.now) self.old result self.new }
    {
        if self.settings.hosts.contains(host) {
            return Err(Refused::Errno(Errno::EEXIST));
        }
        if self.settings.hosts.len() >= MAX_HOSTS {
            return Err(Refused::Errno(Errno::ENOSPC));
        }
        if self.settings.hosts.insert(host.copied()).is_err() {
            return Err(Refused::Memory);
        }
        Ok(Change::of(Touched::Nothing))
    }

    #[tactic(auto, unfolding(crate::specs::Table::rmdir_host, crate::specs::Outcome::first_of))]
    pub(crate) fn rmdir_host(&mut self, host: &Nqn) -> Result<Change, Errno>
        ensures { GivesErrno (rmdir_host self.old host.now) self.old result self.new }
    {
        if !self.settings.hosts.contains(host) {
            return Err(Errno::ENOENT);
        }
        if self.settings.subsystems.some_allows(host) {
            return Err(Errno::EBUSY);
        }
        self.settings.hosts.remove(host);
        Ok(Change::of(Touched::Nothing))
    }
}
