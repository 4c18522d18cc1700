//! The links of lists, and the writes of single links.
ghost use Rattle.std.specs.Prelude.{◌≡◌, ◌<◌, ◌≤◌, ℕ, length, max, slice_index_or, IfSome, OnErr, OnOk};
ghost use Rattle.linked_lists.specs.Chains.{back_to, forth_to, heads_with, links_with, unlinked};

use std::alloc::AllocError;

/// What stands before a place and what behind it: items, or none at an end of the list.
#[derive(Clone, Copy, Drop)]
pub struct Link {
    pub back: Option<usize>,
    pub forth: Option<usize>,
}

/// The link with this number.
pub fn link_of(links: &[Link], number: usize) -> Link
    requires { number < length links.now }
    ensures { result ≡ slice_index_or links.now number unlinked }
{
    links[number]
}

/// The link with this number. Past the last it leads nowhere.
pub fn any_link_of(links: &[Link], number: usize) -> Link
    ensures { result ≡ slice_index_or links.now number unlinked }
{
    if number < links.len() {
        link_of(links, number)
    } else {
        Link {
            back: None,
            forth: None,
        }
    }
}

/// Adds links that lead nowhere, up to this number of links.
pub fn add_links(links: &mut Vec<Link>, number: usize) -> Result<(), AllocError>
    ensures kept { (x : ℕ) → slice_index_or links.new.items x unlinked ≡ slice_index_or links.old.items x unlinked }
    ensures more { length links.old.items ≤ length links.new.items }
    ensures ok { OnOk result (length links.new.items ≡ max (length links.old.items) number) }
    ensures err { OnErr result (links.new.items ≡ links.old.items) }
{
    if number > links.len() {
        links.resize(
            number,
            Link {
                back: None,
                forth: None,
            },
        )?;
    }
    Ok(())
}

/// Lets what follows a place of a list be another.
pub fn set_forth(
    heads: &mut Vec<Link>,
    links: &mut Vec<Link>,
    list: usize,
    place: Option<usize>,
    to: Option<usize>,
)
    requires list { list < length heads.old.items }
    requires place { IfSome place (λ x. x < length links.old.items) }
    ensures heads { heads.new.items ≡ heads_with (forth_to to) list place heads.old.items }
    ensures links { links.new.items ≡ links_with (forth_to to) place links.old.items }
{
    match place {
        None => heads[list].forth = to,
        Some(item) => links[item].forth = to,
    }
}

/// Lets what precedes a place of a list be another.
pub fn set_back(
    heads: &mut Vec<Link>,
    links: &mut Vec<Link>,
    list: usize,
    place: Option<usize>,
    to: Option<usize>,
)
    requires list { list < length heads.old.items }
    requires place { IfSome place (λ x. x < length links.old.items) }
    ensures heads { heads.new.items ≡ heads_with (back_to to) list place heads.old.items }
    ensures links { links.new.items ≡ links_with (back_to to) place links.old.items }
{
    match place {
        None => heads[list].back = to,
        Some(item) => links[item].back = to,
    }
}
