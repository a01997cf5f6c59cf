//! As whom a client acts. (exports(5), `-maproot` and `-mapall`)

ghost use Rattle.std.specs.Prelude.{◌≡◌};
ghost use Rattle.desk_policy.specs.ActingAs.{act_as};

use desk_exports::{Mapping, Terms};
use desk_tables::Cred;

/// Finds the credential that a client with this one acts as, if a mount is granted on these terms.
pub fn act_as(terms: &Terms, own: &Cred) -> Cred
    ensures { result ≡ act_as terms.now own.now }
{
    match terms.map.get() {
        Mapping::All(acted) => acted,
        Mapping::Root(acted) if own.uid == 0 => acted,
        // The groups lie in the credential itself, so a copy takes no memory.
        Mapping::Root(_) => own.clone().unwrap(),
    }
}
