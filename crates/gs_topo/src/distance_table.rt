ghost use Rattle.std.specs.Prelude.{◌≡◌, ◌≤◌, IfOk, fold, length, max};
ghost use Rattle.gs_topo.specs.inside.Search.{AreBelow};
ghost use Rattle.gs_topo.specs.inside.Kept.{IsTableOf};

use crate::levels::levels_from;
use crate::lists::Nodes;
use std::alloc::{AllocError, Global};

/// The distances of all pairs of nodes, row by row.
pub(crate) fn table_of(alloc: Global, lists: &[Nodes]) -> Result<Vec<u16>, AllocError>
    requires few { length lists.now ≤ 512 }
    requires below { AreBelow lists.now }
    ensures { IfOk result (λ table. IsTableOf lists.now table.items) }
{
    let mut table = Vec::new(alloc);
    for source in 0..lists.len() {
        let row = levels_from(alloc, lists, source as u32)?;
        table.extend_from_slice(&row)?;
    }
    Ok(table)
}

/// The greatest number of a table, and 0 where it has none.
pub(crate) fn greatest(table: &[u16]) -> u16
    ensures { result ≡ fold max 0 table.now }
{
    let mut most = 0;
    for steps in table {
        most = most.max(*steps);
    }
    most
}
