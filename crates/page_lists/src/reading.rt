//! How the page is read, which is the same on every page.

ghost use Rattle.std.specs.Prelude.{◌≡◌, ◌++◌, OnOk};
ghost use Rattle.std.specs.String.{string_bytes};
ghost use Rattle.page_lists.specs.Reading as spec;

use page_html::push_fixed;
use std::alloc::AllocError;

/// The words of the page, how its maps are read, by which rules a line stands out, and what the page does not tell.
const HOW_TO_READ: &str = r##"<section id="read">
<h2>How to read this</h2>
<h3>Words</h3>
<dl class="words">
<dt><span class="b n">denied</span></dt><dd>The client may not mount the directory: no line matches it, or none of the lines that match it best lists the directory.</dd>
<dt><span class="b o">read-only</span></dt><dd>It may mount it read-only, and no user of the client acts as uid 0.</dd>
<dt><span class="b w">read-write</span></dt><dd>It may mount it read-write, and no user of the client acts as uid 0.</dd>
<dt><span class="b r">root kept</span></dt><dd>It may mount it, read-only or read-write, and its root, or every user, acts as uid 0 (<code>-maproot=0</code>, <code>-mapall=0</code>).</dd>
<dt>other directories</dt><dd>All directories of the file system that no line writes, but for its mount point, which is listed by its name. They have the same verdicts, so one list holds for all of them. Where directories are counted, these are not.</dd>
<dt>Guarded</dt><dd>A change of the exports file takes two of its custodians. <code>site</code> alone keeps the tables: it may change whom names mean (<code>hosts</code>, <code>netgroup</code>), and take the guard away (<code>filesystems</code>).</dd>
<dt>to addresses</dt><dd>To how many addresses the line grants some directory: those for which it is the line that the verdict names.</dd>
<dt>State</dt><dd>The SHA-256 of a line <code>NAME rev N by AUTHOR SHA-256</code> for each file in the order of the table of files, with <code> approved by APPROVER</code> behind the author if there is one, and <code> profile P</code> before the digest of exports; and of a line <code>NAME proposed rev N by AUTHOR SHA-256</code> behind it if the file has a proposal. Equal states have equal texts in force, numbers of revisions, authors, approvers, profiles and proposals: all that this page shows.</dd>
</dl>
<h3>Maps</h3>
<p>A map is one network, cut into 256 cells of equal size: 16 rows of 16, read like text. In a map of all IPv4 a cell is a /8 and a row is a /4; in one of a /8, /16 or /24 a cell is a /16, a /24 or one address. The cell's number, from 0 to 255, is the next number of the address; the numbers at the left are those of the first cells of the rows. In the map of 172.16.0.0/12 a row is a /16, from 172.16 to 172.31, and a cell a /20.</p>
<p>The whole cell shows what <b>every</b> address in it may; a mark in its middle shows the most that <b>at least one</b> may, if that is more: a hollow square for read-only, a full one for read-write, a diamond for root kept. So no host vanishes, and a cell is full only if all of it is granted. The most is, in this order: root kept, read-write, read-only.</p>
<p>Wherever what a client may (nothing, read-only, read-write, root kept) changes between two neighbouring addresses, one of the maps has that border as a line of its grid, unless the page says that maps are not drawn.</p>
<h3>What stands out</h3>
<p>A line stands out by these rules and no others. Only <i>look first</i> and <i>check</i> tell them apart; an intended line may stand out, and a line that does not is not thereby right.</p>
<p>In the summary, proposals by which clients may do more stand above the lines. Lines for the same written names share a row there if they stand out for the same reasons, on the same terms, and grant something to as many addresses; a reason that names another line is the same only within a file system. The row names the first four of its lines, and shows the first as written. A line for a network or for everybody has a row of its own.</p>
<table class="f">
<caption class="off">Rules by which a line stands out</caption>
<thead><tr><th scope="col">Level</th><th scope="col">Words</th><th scope="col">The line</th></tr></thead>
<tbody>
<tr><th scope="row"><b class="l look-first">look first</b></th><td>for everybody, read-write, sec=..</td><td>names no client or a network /0, is not <code>-ro</code>, and grants something</td></tr>
<tr><th scope="row"><b class="l look-first">look first</b></th><td>root stays root, every user acts as root</td><td>is for a network or for everybody, keeps uid 0, and grants something</td></tr>
<tr><th scope="row"><b class="l look-first">look first</b></th><td>mountd(8) grants more</td><td>is the first to decide for some client to whom mountd(8) also grants a directory that is denied here: by another line, for a network of that client, which lists it (named are the least such client, that line, and the first such directory)</td></tr>
<tr><th scope="row"><b class="l look-first">look first</b></th><td>mountd(8) may leave this line out</td><td>has a client of an earlier line of the file system: an address, its network, or everybody. mountd(8) takes one line for a client and a file system, and may leave this one out with all its clients (named are the first such line, and the least such client: of a network its first address, of everybody 0.0.0.0)</td></tr>
<tr><th scope="row"><b class="l check">check</b></th><td>for everybody, read-only, sec=..</td><td>names no client or a network /0, is <code>-ro</code>, and grants something</td></tr>
<tr><th scope="row"><b class="l check">check</b></th><td>root stays root, every user acts as root</td><td>is for hosts or netgroups, keeps uid 0, and grants something</td></tr>
<tr><th scope="row"><b class="l check">check</b></th><td>wide</td><td>grants something to over 65,536 addresses, and is not for everybody</td></tr>
<tr><th scope="row"><b class="l check">check</b></th><td>matches nobody</td><td>has only names that stand for no address, or a network of IPv6</td></tr>
<tr><th scope="row"><b class="l check">check</b></th><td>never decides</td><td>matches some address, but other lines decide for all of them: made a comment, it would leave every verdict as it is</td></tr>
</tbody></table>
<h3>What this page does not tell</h3>
<ul>
<li>A client is an IPv4 address. Addresses can be forged, and with <code>sys</code> a client says itself who its users are.</li>
<li>The page is about the texts in the database. Whether the server has the same ones it does not know.</li>
<li>A denial does not bind every client to whom another directory of the same file system is granted. NFSv4 reaches all of that file system, and so does a client that guesses file handles; and mountd(8) grants a directory by any line for the client's hosts or networks that lists it. What stands out names each line where that grants more, and the lists of who may mount name one client for each line that denies; verdicts, maps and counts leave it out. If in doubt, go by the most that a client may mount of the file system.</li>
<li>Hosts and networks of IPv6 match nobody here, and <code>V4:</code> lines are neither read nor counted.</li>
<li>When a revision was put: the database keeps no times. Revision 1 by <code>site</code> is what <code>init</code> read, whoever wrote it.</li>
<li>What is too long is cut, and how much is left out is counted there. <code>exportdesk who</code> lists all clients of a directory. Shares in percent are rounded down.</li>
<li>Under Kerberos the principal decides as whom a user acts; the words on root are for <code>sys</code>.</li>
<li>Keys, and their digests, are not in it. Keep it as you keep the exports themselves.</li>
</ul>
</section>
"##;

/// Adds how the page is read.
#[tactic(auto, unfolding(crate::specs::Reading::how_to_read))]
pub fn push_how_to_read(page: &mut String) -> Result<(), AllocError>
    ensures { OnOk result (string_bytes page.new ≡ string_bytes page.old ++ spec.how_to_read) }
{
    push_fixed(HOW_TO_READ, page)
}
