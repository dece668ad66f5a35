//! The shape of a table in words, and the words around it.

/// Returns the number of black nodes on each path down from a node, with one for the end, or
/// `None` if the tree is no red-black tree of keys from `low` to below `high`. The parameter
/// `fuel` bounds the recursion, as the prover needs a measure.
fn blacks_of(words: &[u64], node: u64, low: u64, high: u64, red: bool, fuel: u32) -> Option<u32> {
    if node == 0 {
        return Some(1);
    }
    if fuel == 0 {
        return None;
    }
    let at = node as usize;
    let key = *words.get(at)?;
    let left = *words.get(at.wrapping_add(1))?;
    let right = *words.get(at.wrapping_add(2))?;
    let colour = *words.get(at.wrapping_add(3))?;
    if key < low || high <= key || 1 < colour {
        return None;
    }
    if red && colour == 1 {
        return None;
    }
    let on_left = blacks_of(words, left, low, key, colour == 1, fuel - 1)?;
    let on_right = blacks_of(words, right, key, high, colour == 1, fuel - 1)?;
    if on_left != on_right {
        return None;
    }
    if colour == 1 {
        return Some(on_left);
    }
    on_left.checked_add(1)
}

/// Returns whether the table is a red-black tree with a black root, no deeper than 36 nodes.
pub(crate) fn is_red_black(words: &[u64]) -> bool {
    let Some(root) = words.get(3) else {
        return false;
    };
    blacks_of(words, *root, 0, u64::MAX, true, 36).is_some()
}

/// Returns whether the words outside of the table, and the keys and payloads of all blocks, are as
/// they were at the start.
pub(crate) fn rest_is_kept(words: &[u64], start: &[u64]) -> bool {
    let mut kept = words.len() == start.len();
    for (i, (word, before)) in words.iter().zip(start.iter()).enumerate() {
        let is_link = 16 <= i && 1 <= i % 8 && i % 8 <= 3;
        if i != 3 && !is_link && word != before {
            kept = false;
        }
    }
    kept
}
