//! What the rule of the server has to do with that of this desk, each as a function that does nothing.

ghost use Rattle.desk_server.specs.Laws.{GrantsAreTheServers, GrantsAreTheServersByLoadedLines, NothingRepeatedIsLoaded, NothingWiderIsEqual, ServerGrantsWhatIsListedForMountd, SilenceIsTheServersVerdict, VerdictsDifferWhereTheServerGrantsMore};

use desk_who::verdicts_are_discrete;

/// What is granted here the server grants, by the same line and on the same terms.
pub fn grants_are_the_servers()
    ensures { GrantsAreTheServers }
{
    verdicts_are_discrete();
}

/// Where the two verdicts differ, the mount is denied here as not listed, and the server grants it on the terms of the line that is
/// named.
pub fn verdicts_differ_where_the_server_grants_more()
    ensures { VerdictsDifferWhereTheServerGrantsMore }
{
    verdicts_are_discrete();
}

/// The server grants a mount exactly if a line that names the client lists it, or none does and one for everybody lists it.
pub fn server_grants_what_is_listed()
    ensures { ServerGrantsWhatIsListedForMountd }
{}

/// In a file system of which no line is told where the server grants more, the two verdicts are the same.
pub fn nothing_wider_is_equal()
    ensures { NothingWiderIsEqual }
{
    verdicts_are_discrete();
}

/// Of lines of which none has a client of an earlier one mountd leaves none out.
pub fn nothing_repeated_is_loaded()
    ensures { NothingRepeatedIsLoaded }
{}

/// In a file system of which neither is told, the verdict here is that of mountd's rule by the lines that it puts in force. If only
/// the latter is not told, what is granted here is granted there.
pub fn silence_is_the_servers_verdict()
    ensures verdicts { SilenceIsTheServersVerdict }
    ensures grants { GrantsAreTheServersByLoadedLines }
{
    verdicts_are_discrete();
}
