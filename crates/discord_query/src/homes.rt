//! The leaf of each series, looked up by its number: where the nearest other is sought first.
use outside::NoMemory;
use std::alloc::Global;
use subtree_build::Index;

/// For each series, by its number, the leaf of which it is a member.
pub(crate) fn homes_of(alloc: Global, index: &Index, count: u32) -> Result<Vec<u32>, NoMemory> {
    let mut homes = vec![in alloc; 0; count as usize]?;
    for leaf in 0..index.leaf_count() {
        for member in index.leaf_members(leaf) {
            if let Some(home) = homes.get_mut(member.number as usize) {
                *home = leaf;
            }
        }
    }
    Ok(homes)
}
