//! What the definitions of this crate keep, as a function that does nothing.

ghost use Rattle.page_maps.specs.NetworkLaws.{AlikeMeansAll};

/// A class is told of all addresses of a network exactly if all of them have it, and it is not that of a denial.
pub fn alike_means_all()
    ensures { AlikeMeansAll }
{}
