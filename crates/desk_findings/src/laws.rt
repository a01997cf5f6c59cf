//! What silence of `check` means, as functions that do nothing.

ghost use Rattle.desk_findings.specs.Silence.{EqualIfNothingWider, FaultlessSitesWrite, FaultlessTextsWrite, LoadedIfNothingRepeated, OfFaultless, OfFaultlessSite, SilentFindingsAreQuiet, SilentFindingsAreTheServers, SilentFindingsSayNothing, SilentSitesAreTheServers, TheServersIfNeither};

use desk_exports::laws::first_fault_is_the_head;
use desk_idle::read_lines_write_directories;
use desk_netgroup::laws::first_of_faults_is_reported as first_netgroup_fault_is_reported;
use desk_server::laws::{
    nothing_repeated_is_loaded, nothing_wider_is_equal, silence_is_the_servers_verdict,
};
use desk_tables::laws::first_of_faults_is_reported;
use desk_text::laws::lines_ascend;

/// If nothing that is found in texts is a fault, they can all be read, and write a policy: those of `check FILE`, and the files of
/// a site, whose custodians are all listed then.
pub fn faultless_texts_write()
    ensures texts { FaultlessTextsWrite }
    ensures sites { FaultlessSitesWrite }
{
    first_of_faults_is_reported();
    first_netgroup_fault_is_reported();
    first_fault_is_the_head();
}

/// If what is found in texts has no fault, and no finding on a line of a file system says that mountd(8) grants more, each verdict
/// on a path of it is that of the rule of mountd. If none says that mountd may leave the line out, it puts all lines of the file
/// system in force. If neither is said, each verdict is that of the rule of mountd by the lines that it puts in force.
pub fn nothing_found_is_the_servers()
    ensures equal { OfFaultless EqualIfNothingWider }
    ensures loaded { OfFaultless LoadedIfNothingRepeated }
    ensures verdicts { OfFaultless TheServersIfNeither }
{
    lines_ascend();
    read_lines_write_directories();
    nothing_wider_is_equal();
    nothing_repeated_is_loaded();
    silence_is_the_servers_verdict();
}

/// So it is of what is found in the files of a site.
pub fn nothing_found_in_a_site_is_the_servers()
    ensures equal { OfFaultlessSite EqualIfNothingWider }
    ensures loaded { OfFaultlessSite LoadedIfNothingRepeated }
    ensures verdicts { OfFaultlessSite TheServersIfNeither }
    ensures silent { SilentSitesAreTheServers }
{
    nothing_found_is_the_servers();
    silent_findings_are_the_servers();
}

/// If what is found in texts has no fault, and tells of no line that mountd(8) grants more or may leave it out, so it is of each
/// file system of their policy, and its verdicts are those of the rule of mountd by the lines that it puts in force.
pub fn silent_findings_are_the_servers()
    ensures said { SilentFindingsSayNothing }
    ensures quiet { SilentFindingsAreQuiet }
    ensures verdicts { SilentFindingsAreTheServers }
{
    lines_ascend();
    silence_is_the_servers_verdict();
}
