//! The head of the page.

ghost use Rattle.std.specs.Prelude.{◌≡◌, ◌++◌, OnOk};
ghost use Rattle.std.specs.String.{string_bytes};
ghost use Rattle.page_html.specs.Head as spec;

use crate::escaping::push_attribute;
use crate::style::STYLE;
use std::alloc::AllocError;

/// Adds the head of the page, with the word for the database as its title, and the style sheet. Its policy lets nothing be fetched or run,
/// and allows just this style sheet, by its SHA-256 in Base64.
pub fn push_page_head(database: &str, page: &mut String) -> Result<(), AllocError>
    ensures { OnOk result (string_bytes page.new ≡ string_bytes page.old ++ spec.page_head database.now) }
{
    push_start(page)?;
    push_attribute(database, page)?;
    push_sheet(page)
}

/// Adds what stands before the title.
fn push_start(page: &mut String) -> Result<(), AllocError>
    ensures { OnOk result (string_bytes page.new ≡ string_bytes page.old ++ spec.head_start) }
{
    push_before_policy(page)?;
    push_policy(page)?;
    push_behind_policy(page)
}

/// Adds what stands before the policy.
fn push_before_policy(page: &mut String) -> Result<(), AllocError>
    ensures { OnOk result (string_bytes page.new ≡ string_bytes page.old ++ spec.before_policy) }
{
    page.push_str(
        "<!DOCTYPE html>\n<html lang=\"en\">\n<head>\n<meta charset=\"utf-8\">\n<meta http-equiv=\"Content-Security-Policy\" content=\"",
    )
}

/// Adds the policy.
fn push_policy(page: &mut String) -> Result<(), AllocError>
    ensures { OnOk result (string_bytes page.new ≡ string_bytes page.old ++ spec.policy) }
{
    page.push_str(
        "default-src 'none'; style-src 'sha256-4rdn4sO52TbfG+mO+vk3R53Tm58Fof8PUx7CskmmetY='",
    )
}

/// Adds what stands between the policy and the title.
fn push_behind_policy(page: &mut String) -> Result<(), AllocError>
    ensures { OnOk result (string_bytes page.new ≡ string_bytes page.old ++ spec.behind_policy) }
{
    page.push_str(
        "\">\n<meta name=\"viewport\" content=\"width=device-width, initial-scale=1\">\n<meta name=\"color-scheme\" content=\"light dark\">\n<meta name=\"referrer\" content=\"no-referrer\">\n<meta name=\"robots\" content=\"noindex\">\n<title>Exports of ",
    )
}

/// Ends the title, and adds the style sheet.
fn push_sheet(page: &mut String) -> Result<(), AllocError>
    ensures { OnOk result (string_bytes page.new ≡ string_bytes page.old ++ spec.sheet) }
{
    page.push_str("</title>\n<style>")?;
    push_style(page)?;
    page.push_str("</style>\n</head>\n<body>\n")
}

/// Adds the style sheet.
#[tactic(auto, unfolding(crate::specs::Head::style))]
fn push_style(page: &mut String) -> Result<(), AllocError>
    ensures { OnOk result (string_bytes page.new ≡ string_bytes page.old ++ spec.style) }
{
    page.push_str(STYLE)
}
