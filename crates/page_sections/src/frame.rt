//! The beginning and the end of the page, and the frame of the last changes.
ghost use Rattle.std.specs.Prelude.{◌≡◌, ◌++◌, OnOk, string_bytes};
ghost use Rattle.page_sections.specs.Frame.{about_text, beginning_text, changes_beginning_text};
ghost use Rattle.page_sections.specs.Frame.{changes_end_text, end_text, head_text, styles_text};
ghost use Rattle.page_sections.specs.Frame.{title_text};

use crate::script::SCRIPT;
use crate::style::STYLE;
use ospf_types::address::Address;
use ospf_types::memory::Memory;

// The first part of the head. Its policy keeps a browser from loading anything from elsewhere.
const HEAD: &str = "<!DOCTYPE html>
<html lang=\"en\">
<head>
<meta charset=\"utf-8\">
<meta name=\"viewport\" content=\"width=device-width, initial-scale=1\">
<meta http-equiv=\"Content-Security-Policy\" content=\"default-src 'none'; style-src 'unsafe-inline'; \
script-src 'unsafe-inline'\">
";

// The links to the sections of the page.
const SECTIONS: &str = "<nav>
<a href=\"#areas\">Areas</a>
<a href=\"#ranges\">Address ranges</a>
<a href=\"#routes\">Routing table</a>
<a href=\"#summaries\">Summary-LSAs</a>
<a href=\"#changes\">Last changes</a>
</nav>
";

/// Appends the beginning of the page: its head with the style, the Router ID in the heading, the
/// serial of the last event, and links to the sections.
///
/// # Errors
///
/// Returns `Memory` if memory runs out. The text may then have a part of this.
pub fn put_beginning(router: u32, serial: u64, text: &mut String) -> Result<(), Memory>
    ensures { OnOk result (string_bytes text.new ≡ string_bytes text.old
        ++ beginning_text router serial) }
{
    put_head(router, text)?;
    put_style(text)?;
    put_title(router, text)?;
    put_about(serial, text)?;
    text.push_str(SECTIONS)?;
    Ok(())
}

// Appends the head without the style.
fn put_head(router: u32, text: &mut String) -> Result<(), Memory>
    ensures { OnOk result (string_bytes text.new ≡ string_bytes text.old ++ head_text router) }
{
    let router = Address(router);
    text.push_str(HEAD)?;
    writeln!(text, "<title>Router {router}</title>")?;
    Ok(())
}

// Appends the style, and the end of the head.
fn put_style(text: &mut String) -> Result<(), Memory>
    ensures { OnOk result (string_bytes text.new ≡ string_bytes text.old ++ styles_text) }
{
    text.push_str("<style>\n")?;
    text.push_str(STYLE)?;
    text.push_str("</style>\n</head>\n<body>\n")?;
    Ok(())
}

// Appends the heading of the page.
fn put_title(router: u32, text: &mut String) -> Result<(), Memory>
    ensures { OnOk result (string_bytes text.new ≡ string_bytes text.old ++ title_text router) }
{
    let router = Address(router);
    writeln!(text, "<h1>Router {router}</h1>")?;
    Ok(())
}

// Appends a paragraph about the contents of the page.
fn put_about(serial: u64, text: &mut String) -> Result<(), Memory>
    ensures { OnOk result (string_bytes text.new ≡ string_bytes text.old ++ about_text serial) }
{
    writeln!(
        text,
        "<p>What this router (OSPF, RFC 2328) has after event number {serial} of its recording: the graph of each \
area with the shortest-path tree, the address ranges, the routing table, the summary-LSAs that are due, and what \
changed last.</p>"
    )?;
    Ok(())
}

/// Appends the text before the lines of the last changes. It says that nothing changed if
/// `is_empty` is true.
///
/// # Errors
///
/// Returns `Memory` if memory runs out. The text may then have a part of this.
pub fn put_changes_beginning(is_empty: bool, text: &mut String) -> Result<(), Memory>
    ensures { OnOk result (string_bytes text.new ≡ string_bytes text.old
        ++ changes_beginning_text is_empty) }
{
    if is_empty {
        text.push_str("<h2 id=\"changes\">Last changes</h2>\n<p>Nothing changed.</p>\n")?;
    } else {
        text.push_str("<h2 id=\"changes\">Last changes</h2>\n<pre>")?;
    }
    Ok(())
}

/// Appends the text after these lines. The lines contain neither `<` nor `&`, because no word,
/// number or address does.
pub fn put_changes_end(is_empty: bool, text: &mut String) -> Result<(), Memory>
    ensures { OnOk result (string_bytes text.new ≡ string_bytes text.old
        ++ changes_end_text is_empty) }
{
    if !is_empty {
        text.push_str("</pre>\n")?;
    }
    Ok(())
}

/// Appends the end of the page: its script.
///
/// # Errors
///
/// Returns `Memory` if memory runs out. The text may then have a part of this.
pub fn put_end(text: &mut String) -> Result<(), Memory>
    ensures { OnOk result (string_bytes text.new ≡ string_bytes text.old ++ end_text) }
{
    text.push_str("<script>\n")?;
    text.push_str(SCRIPT)?;
    text.push_str("</script>\n</body>\n</html>\n")?;
    Ok(())
}
