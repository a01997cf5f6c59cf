//! The five tables of a site that an exports file is read with.

ghost use Rattle.std.specs.Prelude.{◌≡◌, IfOk};
ghost use Rattle.desk_policy.specs.PerTable.{map_tables};

use desk_text::Text;
use std::alloc::{AllocError, Global};

/// What there is for each of these tables: hosts(5), networks(5), passwd(5), group(5) and netgroup(5), in the order in which
/// they are judged.
#[derive(Clone, Copy, Drop)]
pub struct PerTable<T> {
    pub hosts: T,
    pub networks: T,
    pub passwd: T,
    pub group: T,
    pub netgroup: T,
}

impl PerTable<Text> {
    /// Copies the texts of the tables.
    pub fn copy(alloc: Global, texts: PerTable<&str>) -> Result<PerTable<Text>, AllocError>
        ensures { IfOk result (λ tables. tables ≡ map_tables (λ text. text.now) texts.entry) }
    {
        Ok(PerTable {
            hosts: Text::copy(alloc, texts.hosts)?,
            networks: Text::copy(alloc, texts.networks)?,
            passwd: Text::copy(alloc, texts.passwd)?,
            group: Text::copy(alloc, texts.group)?,
            netgroup: Text::copy(alloc, texts.netgroup)?,
        })
    }

    /// Lends each text.
    pub fn lend(&self) -> PerTable<&str>
        ensures { map_tables (λ text. text.now) result ≡ self.now }
    {
        PerTable {
            hosts: self.hosts.as_str(),
            networks: self.networks.as_str(),
            passwd: self.passwd.as_str(),
            group: self.group.as_str(),
            netgroup: self.netgroup.as_str(),
        }
    }
}
