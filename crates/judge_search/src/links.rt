//! Links of calls to the earlier calls of their clients, and the place of the first pending call.

ghost use Rattle.std.specs.Prelude.{◌≡◌, IfOk, true, get_or};
ghost use Rattle.std.specs.FinMap as map;
ghost use Rattle.judge_search.specs.Calls.{are_sorted};
ghost use Rattle.judge_search.specs.Links.{AreLinked, ArePartedAt, link_or};

use crate::lasts::Lasts;
use judge_object::{Line, NEVER};
use std::alloc::{AllocError, Global};

/// Returns the place after that of a client's last call; 0 if the client has made none.
fn link_of(lasts: &Lasts, client: u32) -> usize
    ensures { result ≡ link_or (map.get lasts.now client) }
{
    match lasts.get(client) {
        Some(after) => after,
        None => 0,
    }
}

/// Returns for each call the place after that of its client's call before it; 0 if there is none.
pub(crate) fn links_of<O>(alloc: Global, lines: &[Line<O>]) -> Result<Vec<usize>, AllocError>
    ensures { IfOk result (λ links. AreLinked lines.now links.items) }
{
    let mut lasts = Lasts::new(alloc);
    let mut links = Vec::new(alloc);
    'lines: for place in 0..lines.len() {
        let client = lines[place].client;
        links.push(link_of(&lasts, client))?;
        lasts.insert(client, place + 1)?;
    }
    Ok(links)
}

/// Returns the number of completed calls, which come first.
pub(crate) fn completed_of<O>(lines: &[Line<O>]) -> usize
    requires { are_sorted lines.now ≡ true }
    ensures { ArePartedAt lines.now result }
{
    'lines: for place in 0..lines.len() {
        if NEVER <= lines[place].end {
            return place;
        }
    }
    lines.len()
}
