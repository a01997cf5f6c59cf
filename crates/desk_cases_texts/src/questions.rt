//! The questions on texts, tables and policies. What each asks stands at the function that answers it.

ghost use Rattle.desk_text.specs.Lines.{IsReadable};

use crate::answers::Asked;
use crate::site::Site;
use crate::{
    addresses, credentials, custodians, expectations, exports, faults, filesystems, hosts, indexes,
    lines, listings, netgroups, nets, networks, parts, paths, policies, ranges, reasons, reports,
    servers, sites,
};
use desk_text::is_readable;
use std::alloc::Global;

/// Answers a question.
pub fn answer(
    alloc: Global,
    site: &mut Site,
    out: &mut String,
    question: &str,
    text: &str,
) -> Asked {
    if !is_readable(text) {
        return Ok(false);
    }
    Ok(of_text(alloc, out, question, text)? || of_site(alloc, site, out, question, text)?)
}

/// Answers a question on a text alone.
fn of_text(alloc: Global, out: &mut String, question: &str, text: &str) -> Asked
    requires { IsReadable text.now }
{
    Ok(
        addresses::answer(out, question, text)?
            || nets::answer(out, question, text)?
            || paths::answer(alloc, out, question, text)?
            || lines::answer(alloc, out, question, text)?,
    )
}

/// Answers a question on the tables or the policy, or one that reads them.
fn of_site(alloc: Global, site: &mut Site, out: &mut String, question: &str, text: &str) -> Asked
    requires { IsReadable text.now }
{
    Ok(
        hosts::answer(alloc, site, out, question, text)?
            || networks::answer(alloc, site, out, question, text)?
            || netgroups::answer(alloc, site, out, question, text)?
            || credentials::answer(alloc, site, out, question, text)?
            || custodians::answer(alloc, site, out, question, text)?
            || filesystems::answer(alloc, site, out, question, text)?
            || exports::answer(alloc, site, out, question, text)?
            || policies::answer(alloc, site, out, question, text)?
            || listings::answer(alloc, site, out, question, text)?
            || indexes::answer(alloc, site, out, question, text)?
            || ranges::answer(alloc, site, out, question, text)?
            || reasons::answer(alloc, site, out, question, text)?
            || servers::answer(alloc, site, out, question, text)?
            || reports::answer(alloc, site, out, question, text)?
            || expectations::answer(alloc, site, out, question, text)?
            || parts::answer(alloc, site, out, question, text)?
            || sites::answer(alloc, site, out, question, text)?
            || faults::answer(alloc, site, out, question, text)?,
    )
}
