//! The lines of one file system among those of a site.

ghost use Rattle.std.specs.Prelude.{◌≡◌, map};
ghost use Rattle.page_findings.specs.Lines.{line_value};
ghost use Rattle.page_filesystem.specs.OwnLines as spec;
ghost use Rattle.page_filesystem.specs.OwnLines.{AreByFileSystem};

use desk_tables::FsId;
use page_findings::SiteLine;

/// Lends the lines of a file system, by two binary searches.
pub fn lines_in<'b, 'a>(lines: &'b [SiteLine<'a>], fs: FsId) -> &'b [SiteLine<'a>]
    requires { AreByFileSystem (map line_value lines.now) }
    ensures { map line_value result.now ≡ spec.lines_in (map line_value lines.now) fs.0 }
{
    let number = fs.0;
    let end = lines.partition_point(|line| line.fs.0 <= number);
    let below = &lines[..end];
    let begin = below.partition_point(|line| line.fs.0 < number);
    &below[begin..]
}
