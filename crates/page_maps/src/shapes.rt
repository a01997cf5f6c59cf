//! The shapes that the maps of a page have in common.

ghost use Rattle.std.specs.Prelude.{◌≡◌, ◌++◌, OnOk};
ghost use Rattle.std.specs.String.{string_bytes};
ghost use Rattle.page_maps.specs.Shapes as spec;

use page_html::push_fixed;
use std::alloc::AllocError;

/// The patterns that fill cells, the ground of a map, its grid, and the numbers of its rows.
const SHAPES: &str = r#"<svg class="defs" width="0" height="0" aria-hidden="true" focusable="false">
<defs>
<pattern id="po" width="2" height="2" patternUnits="userSpaceOnUse" patternTransform="rotate(45)"><path class="po" d="M0 0h1.1v2h-1.1z"/></pattern>
<pattern id="pr" width="4" height="4" patternUnits="userSpaceOnUse"><path class="pr" d="M0 0h4v4h-4z"/><path class="px" d="M1.5 .5h1v1h1v1h-1v1h-1v-1h-1v-1h1z"/></pattern>
<path id="g" class="g" d="M0 0h64v64h-64z"/>
<path id="h" class="h" d="M4 0v64M8 0v64M12 0v64M16 0v64M20 0v64M24 0v64M28 0v64M32 0v64M36 0v64M40 0v64M44 0v64M48 0v64M52 0v64M56 0v64M60 0v64M0 4h64M0 8h64M0 12h64M0 16h64M0 20h64M0 24h64M0 28h64M0 32h64M0 36h64M0 40h64M0 44h64M0 48h64M0 52h64M0 56h64M0 60h64"/>
<g id="y" class="y"><text x="-2" y="4">0</text><text x="-2" y="20">64</text><text x="-2" y="36">128</text><text x="-2" y="52">192</text></g>
<g id="y12" class="y"><text x="-2" y="4">16</text><text x="-2" y="20">20</text><text x="-2" y="36">24</text><text x="-2" y="52">28</text></g>
</defs></svg>
"#;

/// Adds the shapes that the maps refer to. They stand on the page once.
#[tactic(auto, unfolding(crate::specs::Shapes::shapes))]
pub fn push_shapes(page: &mut String) -> Result<(), AllocError>
    ensures { OnOk result (string_bytes page.new ≡ string_bytes page.old ++ spec.shapes) }
{
    push_fixed(SHAPES, page)
}
