//! What comes next by each way to mark eight places, so that texts are searched eight places at a time.

ghost use Rattle.std.specs.Prelude.{◌≡◌, ◌≤◌, ◌<◌, ◌+◌, ◌*◌, ◌/◌, ◌%◌, false, IfOk, IfSome, List, ℕ, length, get_or};
ghost use Rattle.wot_regex.specs.Following.{Holds, IsRow, IsRows, IsSoFar, IsTable, cells_by, in_eight};
ghost use Rattle.wot_regex.specs.declared.followers.Row.{Row};
ghost use Rattle.wot_regex.specs.declared.reach.Reach.{Reach};

use crate::followers::{Row, row_by_places, row_from};
use crate::node::Node;
use crate::set::{PLACES, Set};
use crate::steps::Common;
use std::alloc::Global;
use wot_types::Mem;

/// A set has so many times eight places.
const EIGHTS: usize = PLACES / 8;

/// A table has a row for each way to mark eight places, and for each eight of them. Those of one way stand together: at equal distances that are
/// powers of two they would drive each other out of the processor's cache.
const ROWS: usize = 256 * EIGHTS;

/// So many bytes are searched before a table is made, whether of one text or of many: fewer are searched sooner than it is made.
pub const LONG: usize = 4096;

/// By fewer symbols than these that are no steps, going from mark to mark is as fast.
const MANY: usize = 40;

/// A table where texts are searched faster by one, and else none; none where there is no memory for it.
pub fn table_for(alloc: Global, nodes: &[Node], common: &Common, rows: &[Row]) -> Option<Vec<Row>>
    requires room { length nodes.now ≤ PLACES }
    requires whole { length rows.now ≡ length nodes.now }
    requires rows { IsRows nodes.now common.now rows.now }
    ensures { IfSome result (λ table. IsTable nodes.now table.items) }
{
    if count_others(nodes, &common.steps) < MANY {
        return None;
    }
    table_of(alloc, nodes, common, rows).ok()
}

/// How many symbols are no steps.
fn count_others(nodes: &[Node], steps: &Set) -> usize
    requires { length nodes.now ≤ PLACES }
{
    let mut count = 0usize;
    for i in 0..nodes.len() {
        if is_symbol(nodes[i]) && !steps.has(i) {
            count = count.saturating_add(1);
        }
    }
    count
}

fn is_symbol(node: Node) -> bool {
    matches!(node, Node::Any | Node::Byte(_) | Node::Range { .. })
}

fn table_of(alloc: Global, nodes: &[Node], common: &Common, rows: &[Row]) -> Result<Vec<Row>, Mem>
    requires room { length nodes.now ≤ PLACES }
    requires whole { length rows.now ≡ length nodes.now }
    requires rows { IsRows nodes.now common.now rows.now }
    ensures { IfOk result (λ table. IsTable nodes.now table.items) }
{
    let mut table = vec![in alloc; common.first; ROWS]?;
    fill(nodes, common, rows, &mut table);
    Ok(table)
}

/// Notes the rows of a table.
fn fill(nodes: &[Node], common: &Common, rows: &[Row], table: &mut [Row])
    requires room { length nodes.now ≤ PLACES }
    requires whole { length rows.now ≡ length nodes.now }
    requires rows { IsRows nodes.now common.now rows.now }
    requires table { length table.old ≡ ROWS }
    ensures { (k : ℕ) (d : Row) → k < length table.old → IsRow nodes.now false (cells_by (in_eight (k % EIGHTS) (k / EIGHTS)) (length nodes.now)) (get_or table.new k d) }
{
    for k in 0..table.len() {
        table[k] = row_by_places(common, rows, &Set::of_eight(k % EIGHTS, k / EIGHTS));
    }
}

/// What comes next by the marks, by the table where there is one.
pub fn row_by(
    nodes: &[Node],
    common: &Common,
    rows: &[Row],
    table: Option<&Vec<Row>>,
    marks: &Set,
) -> Row
    requires room { length nodes.now ≤ PLACES }
    requires whole { length rows.now ≡ length nodes.now }
    requires rows { IsRows nodes.now common.now rows.now }
    requires table { IfSome table (λ t. IsTable nodes.now t.now.items) }
    ensures { (cells : List Reach) → length cells ≡ length nodes.now → Holds marks.now.words cells → IsRow nodes.now false cells result }
{
    match table {
        Some(table) => row_by_table(nodes, common, rows, table, marks),
        None => row_from(common, rows, marks),
    }
}

/// What comes next by the marks, one word after another.
fn row_by_table(nodes: &[Node], common: &Common, rows: &[Row], table: &[Row], marks: &Set) -> Row
    requires room { length nodes.now ≤ PLACES }
    requires rows { IsRows nodes.now common.now rows.now }
    requires table { IsTable nodes.now table.now }
    ensures { (cells : List Reach) → length cells ≡ length nodes.now → Holds marks.now.words cells → IsRow nodes.now false cells result }
{
    let mut row = common.first;
    for i in 0..(nodes.len() + 63) / 64 {
        join_word(nodes, &mut row, table, marks, i);
    }
    row
}

/// Adds what comes next by the marks of a word, eight after another.
fn join_word(nodes: &[Node], row: &mut Row, table: &[Row], marks: &Set, i: usize)
    requires room { length nodes.now ≤ PLACES }
    requires table { IsTable nodes.now table.now }
    requires word { i < 8 }
    ensures { IsSoFar nodes.now marks.now.words (8 * i) row.old → IsSoFar nodes.now marks.now.words (8 * i + 8) row.new }
{
    for j in 0..8 {
        let at = 8 * i + j;
        row.join(&table[EIGHTS * marks.eight(at) + at]);
    }
}
