//! The links of a disk, the name that each says, and what a name stands for.
ghost use Rattle.std.specs.Prelude.{◌≡◌, None, Some, MatchOption, IfSome, string_bytes};
ghost use Rattle.pg_outside.specs.Inside.disk.NewNames.{IsLinkedName};
ghost use Rattle.pg_told_disk.specs.Inside.LinkLists.{link_named, is_link_in, is_open_in, real_in};

use pg_outside::linked_name;
use std::alloc::Global;

/// A link: its name, its text, the name that this says, and whether the link is one of the system to
/// an open file.
#[derive(Drop)]
pub(crate) struct Link {
    pub name: String,
    pub text: String,
    pub said: String,
    pub is_open: bool,
}

/// The link of this name, if there is one.
pub(crate) fn link_of<'a>(links: &'a [Link], name: &str) -> Option<&'a Link>
    ensures { MatchOption result (link_named links.now name.now ≡ None)
        (λ link. link_named links.now name.now ≡ Some link.now) }
{
    match links {
        [] => None,
        [link, older @ ..] => match link_of(older, name) {
            Some(first) => Some(first),
            None if name == link.name.as_str() => Some(link),
            None => None,
        },
    }
}

/// Whether the name is a link.
pub(crate) fn is_link(links: &[Link], name: &str) -> bool
    ensures { result ≡ is_link_in links.now name.now }
{
    link_of(links, name).is_some()
}

/// Whether the name is a link of the system to an open file.
pub(crate) fn is_open(links: &[Link], name: &str) -> bool
    ensures { result ≡ is_open_in links.now name.now }
{
    match link_of(links, name) {
        Some(link) => link.is_open,
        None => false,
    }
}

/// What the name stands for once each link is followed.
pub(crate) fn real_of<'a>(links: &'a [Link], name: &'a str) -> &'a str
    ensures { result.now ≡ real_in links.now name.now }
{
    match links {
        [] => name,
        [link, older @ ..] => {
            let real = real_of(older, name);
            if real == link.name.as_str() {
                real_of(older, link.said.as_str())
            } else {
                real
            }
        }
    }
}

/// The text of the link with this name, where the text says the name that the link is to say.
pub(crate) fn text_of(alloc: Global, name: &str, link: &Link) -> Option<String>
    ensures text { IfSome result (λ text. string_bytes text ≡ string_bytes link.now.text) }
    ensures said { IfSome result (λ text.
        IsLinkedName name.now (string_bytes text) (string_bytes link.now.said)) }
{
    let said = linked_name(alloc, name, link.text.as_str()).ok()?;
    if said.as_str() != link.said.as_str() {
        return None;
    }
    String::from_str(alloc, link.text.as_str()).ok()
}
