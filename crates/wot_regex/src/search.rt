//! Searching the rest of a text by sets of symbols.

ghost use Rattle.std.specs.Prelude.{◌≡◌, ◌≤◌, Bool, false, IfSome, List, length};
ghost use Rattle.wot_types.specs.Expression.{Tree};
ghost use Rattle.wot_regex.specs.Following.{Holds, IsMasks, IsRows, IsTable, Keeps};
ghost use Rattle.wot_regex.specs.Searching.{Searching};
ghost use Rattle.wot_regex.specs.Table.{nodes_of};
ghost use Rattle.wot_regex.specs.declared.reach.Reach.{Reach};

use crate::followers::{Row, ends};
use crate::masks::Masks;
use crate::node::Node;
use crate::set::{PLACES, Set};
use crate::steps::Common;
use crate::table::row_by;

/// Whether a match ends in the rest of a text, from these marks on, which are not at its start.
pub fn search_from(
    nodes: &[Node],
    common: &Common,
    rows: &[Row],
    table: Option<&Vec<Row>>,
    masks: &mut Masks,
    marks: Set,
    rest: &[u8],
) -> bool
    requires room { length nodes.now ≤ PLACES }
    requires whole { length rows.now ≡ length nodes.now }
    requires rows { IsRows nodes.now common.now rows.now }
    requires table { IfSome table (λ t. IsTable nodes.now t.now.items) }
    requires masks { IsMasks nodes.now masks.old }
    ensures masks { IsMasks nodes.now masks.new }
    ensures kept { Keeps masks.old.sets.items masks.new.sets.items }
    ensures found { (tree : Tree) (cells : List Reach) (found : Bool) → nodes.now ≡ nodes_of tree → length cells ≡ length nodes.now → Holds marks.words cells → Searching tree cells false rest.now found → result ≡ found }
{
    let mut marks = marks;
    for b in rest {
        let row = row_by(nodes, common, rows, table, &marks);
        if row.found {
            return true;
        }
        marks = row.next;
        marks.meet(&masks.mask(nodes, *b));
    }
    ends(nodes, &marks, false)
}
