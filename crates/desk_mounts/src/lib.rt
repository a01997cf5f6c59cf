//! Mount points that a text lists: paths, lines of zfs mount, or lines of mount -p. (zfs-mount(8), mount(8))
//!
//! ```text
//! read_mounts(alloc, "zroot/usr /usr\n/dev/ada0p2 /var ufs rw 1 1\ndevfs /dev devfs rw 0 0\n")?; // /usr and /var
//! read_mounts(alloc, "/usr rw 1\n"); // line 1, rule 2 Words, at word 3
//! ```
#![tactic(auto)]

mod reading;
mod rules;
mod site_lines;
mod table;

pub use reading::read_mounts;
pub use rules::{MountsFault, Rule};
pub use site_lines::site_text;
pub use table::table_of;
