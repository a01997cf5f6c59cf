//! Images of the page's own.

ghost use Rattle.std.specs.Prelude.{◌≡◌, ◌++◌, [], OnOk};
ghost use Rattle.std.specs.Fmt.{decimal};
ghost use Rattle.page_html.specs.Images.{image_html};
ghost use Rattle.page_html.specs.Items.{items_html};
ghost use Rattle.page_html.specs.Parts.{items_of};

use crate::parts::{Part, push_parts};
use std::alloc::{AllocError, Global};

/// An image, which can be made of HTML and parts of the page's own alone.
#[derive(Drop)]
pub struct Drawn {
    pub(crate) html: String,
}

impl Drawn {
    /// Makes an image of nothing.
    pub fn new(alloc: Global) -> Drawn
        ensures { image_html result ≡ [] }
    {
        Drawn {
            html: String::new(alloc),
        }
    }

    /// Adds HTML of the page's own.
    pub fn push_fixed(&mut self, html: &'static str) -> Result<(), AllocError>
        ensures { OnOk result (image_html self.new ≡ image_html self.old ++ html.now) }
    {
        self.html.push_str(html)
    }

    /// Adds a number in digits alone.
    pub fn push_digits(&mut self, digits: u64) -> Result<(), AllocError>
        ensures { OnOk result (image_html self.new ≡ image_html self.old ++ decimal digits) }
    {
        write!(self.html, "{digits}")
    }

    /// Adds parts of the page's own: a text of a site is not lent for as long as the program runs.
    pub fn push_parts(&mut self, alloc: Global, parts: &[Part<'static>]) -> Result<(), AllocError>
        ensures { OnOk result (image_html self.new ≡ image_html self.old ++ items_html (items_of parts.now)) }
    {
        push_parts(alloc, parts, &mut self.html)
    }
}
