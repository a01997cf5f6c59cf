//! The tables of a site: hosts, networks, users, groups, file systems, custodians; and credential texts. (exports(5))
//!
//! ```text
//! // With the file systems `/ site` and `/usr ulf`:
//! let filesystems = FileSystems::read(alloc, text)?;
//! filesystems.of(&path)                     // for /usr/local: FsId(1), the longer of the two mount points above it
//! filesystems.keeps("ulf", FsId(1))         // true
//! credential(&users, &groups, "0:10")       // uid 0 with the gid 10, printed `0:10`
//! ```
#![tactic(auto)]

mod colon_lines;
pub mod credential_text;
pub mod credentials;
pub mod custodians;
pub mod faults;
pub mod filesystems;
mod filesystems_text;
pub mod groups;
pub mod hosts;
mod index;
pub mod laws;
pub mod networks;
mod quoted_lines;
mod rows;
pub mod rules;
mod spaced_lines;
pub mod users;

pub use credential_text::{CredFault, credential, has_fault};
pub use credentials::{Cred, GroupIds};
pub use custodians::{Custodian, Custodians};
pub use faults::PlacedFault;
pub use filesystems::{FileSystems, FsId, Mount};
pub use groups::{Group, Groups};
pub use hosts::{HostRow, Hosts};
pub use networks::{NetworkName, Networks};
pub use rules::{TableFault, TableRule};
pub use users::{User, Users};
