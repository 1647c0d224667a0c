//! Links that are joined, in rising order.

ghost use Rattle.std.specs.Prelude.{◌≡◌, ◌<◌, ◌∷◌, [], IfOk, not, vec_capacity, vec_len};
ghost use Rattle.std.specs.List.Sorted.{IsStrictlyIncreasing};
ghost use Rattle.room_core.specs.Rooms.{is_among, with_link, without};

use std::alloc::{AllocError, Global};

/// Whether the link is among these.
pub(crate) fn has_link(links: &[u64], link: u64) -> bool
    ensures { result ≡ is_among links.now link }
{
    links.contains(&link)
}

/// Puts the link in its place. There is room for it, so it takes no memory.
pub(crate) fn insert_link(joined: &mut Vec<u64>, link: u64)
    requires rising { IsStrictlyIncreasing joined.old.items }
    requires room { vec_len joined.old < vec_capacity joined.old }
    ensures with_link { joined.new.items ≡ with_link joined.old.items link }
    ensures rising { IsStrictlyIncreasing joined.new.items }
{
    match joined.binary_search(&link) {
        Ok(_) => {}
        Err(at) => joined.insert(at, link).unwrap(),
    }
}

/// Takes these links out.
pub(crate) fn remove_links(joined: &mut Vec<u64>, gone: &[u64])
    ensures left { joined.new.items ≡ without joined.old.items gone.now }
    ensures rising { IsStrictlyIncreasing joined.old.items → IsStrictlyIncreasing joined.new.items }
{
    joined.retain(
        |link: &u64| -> bool
            ensures { result ≡ not (is_among gone.entry.now link.now) }
        { !has_link(gone, *link) },
    );
}

/// These links but one.
pub(crate) fn other_links(
    alloc: Global,
    joined: &[u64],
    sender: u64,
) -> Result<Vec<u64>, AllocError>
    ensures { IfOk result (λ others. others.items ≡ without joined.now (sender ∷ [])) }
{
    let mut others = Vec::from_slice(alloc, joined)?;
    remove_links(&mut others, &[sender]);
    Ok(others)
}
