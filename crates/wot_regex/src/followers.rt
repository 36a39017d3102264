//! Where matches may go on from each symbol of a table, so that a text is searched by sets of symbols.
//!
//! What is reached from marks together is what is reached from each of them. So from each place of a table alone, and from none, the walks are
//! made once, whatever the byte, and beside that the symbols that take each byte. A byte of the text is then the union of the rows of the places
//! that are marked, of which those stay that take the byte.

ghost use Rattle.std.specs.Prelude.{◌≡◌, ◌≤◌, ◌<◌, ◌||◌, ◌+◌, ◌*◌, ℕ, Bool, false, true, List, length, get_or, replicate};
ghost use Rattle.wot_types.specs.Expression.{Tree};
ghost use Rattle.wot_regex.specs.Following.{Holds, IsFollowers, IsRow, IsRows, entered, front, has, only, open_node, opened, taking};
ghost use Rattle.wot_regex.specs.Knowing.{found_at};
ghost use Rattle.wot_regex.specs.Reaching.{marked, nowhere};
ghost use Rattle.wot_regex.specs.Searching.{Searching};
ghost use Rattle.wot_regex.specs.Table.{nodes_of};
ghost use Rattle.wot_regex.specs.declared.followers.Row.{Row};
ghost use Rattle.wot_regex.specs.declared.node.Node.{Node};
ghost use Rattle.wot_regex.specs.declared.reach.Reach.{Reach};
ghost use Rattle.wot_regex.specs.declared.set.Set.{Set};
ghost use Rattle.wot_regex.specs.declared.steps.Common.{Common};

use crate::matching::{gather, reach_at, spread};
use crate::node::Node;
use crate::nodes::{Nodes, ROOM};
use crate::reach::{Place, Reach};
use crate::set::{PLACES, Set};
use crate::steps::{Common, row_by_steps, steps_of};

/// Where the symbols are that may come next, and whether a match ends here, inside a text.
#[derive(Clone, Copy)]
pub struct Row {
    pub next: Set,
    pub found: bool,
}

/// What a long text is searched by, of an expression of which nothing is kept.
#[derive(Drop)]
pub struct Followers {
    /// Where no place is marked, and which places are steps.
    pub common: Common,
    /// Where one place is.
    pub rows: [Row; PLACES],
    /// The symbols that take each byte.
    pub masks: [Set; 256],
}

/// Whether a match ends in the rest of a text, at whose first place the table has these cells. They move along.
pub fn search_long(nodes: &[Node], cells: &mut [Reach], start: bool, rest: &[u8]) -> bool
    requires room { length nodes.now ≤ PLACES }
    requires same { length cells.old ≡ length nodes.now }
    requires some { 0 < length rest.now }
    ensures { (tree : Tree) (found : Bool) → nodes.now ≡ nodes_of tree → Searching tree cells.old start rest.now found → result ≡ found }
{
    let place = Place { start, end: false };
    if gather(nodes, cells, place).exits(true) {
        return true;
    }
    spread(nodes, cells, rest[0]);
    let marks = set_of(cells);
    search_sets(nodes, &followers_of(nodes), marks, &rest[1..])
}

/// Whether a match ends in the rest of a text, from these marks on, which are not at its start.
fn search_sets(nodes: &[Node], followers: &Followers, marks: Set, rest: &[u8]) -> bool
    requires room { length nodes.now ≤ PLACES }
    requires followers { IsFollowers nodes.now followers.now }
    ensures { (tree : Tree) (cells : List Reach) (found : Bool) → nodes.now ≡ nodes_of tree → length cells ≡ length nodes.now → Holds marks.words cells → Searching tree cells false rest.now found → result ≡ found }
{
    let mut marks = marks;
    for b in rest {
        let row = row_from(&followers.common, &followers.rows[..nodes.len()], &marks);
        if row.found {
            return true;
        }
        marks = row.next;
        marks.meet(&followers.masks[*b as usize]);
    }
    ends(nodes, &marks, false)
}

/// Whether a match ends at these marks where the text ends.
pub fn ends(nodes: &[Node], marks: &Set, start: bool) -> bool
    requires room { length nodes.now ≤ PLACES }
    ensures { (cells : List Reach) → length cells ≡ length nodes.now → Holds marks.now.words cells → result ≡ found_at nodes.now start true cells }
{
    let mut cells = [Reach::NONE; PLACES];
    mark(marks, &mut cells[..nodes.len()]);
    let place = Place { start, end: true };
    reach_at(nodes, &cells[..nodes.len()], place).exits(true)
}

/// Marks the cells of a set.
fn mark(marks: &Set, cells: &mut [Reach])
    requires { length cells.old ≤ PLACES }
    ensures { Holds marks.now.words cells.new }
{
    for i in 0..cells.len() {
        cells[i] = Reach::marked(marks.has(i));
    }
}

/// What comes next by the marks. Those of steps are moved together.
pub fn row_from(common: &Common, rows: &[Row], marks: &Set) -> Row
    requires { length rows.now ≤ PLACES }
    ensures { (nodes : List Node) (cells : List Reach) → length nodes ≡ length rows.now → IsRows nodes common.now rows.now → length cells ≡ length nodes → Holds marks.now.words cells → IsRow nodes false cells result }
{
    let mut moved = *marks;
    moved.meet(&common.steps);
    let mut others = *marks;
    others.leave(&common.steps);
    let mut row = row_by_places(common, rows, &others);
    row.join(&row_by_steps(&common.first, &moved));
    row
}

/// What comes next by the marks, one after another.
pub fn row_by_places(common: &Common, rows: &[Row], marks: &Set) -> Row
    requires { length rows.now ≤ PLACES }
    ensures { (nodes : List Node) (cells : List Reach) → length nodes ≡ length rows.now → IsRows nodes common.now rows.now → length cells ≡ length nodes → Holds marks.now.words cells → IsRow nodes false cells result }
{
    let mut row = common.first;
    for i in 0..8 {
        row.join_word(rows, 64 * i, marks.words[i]);
    }
    row
}

impl Row {
    /// Adds what comes next by the marks of a word, whose first place this is.
    fn join_word(&mut self, rows: &[Row], from: usize, word: u64)
        requires rows { length rows.now ≤ PLACES }
        requires from { from < PLACES }
        ensures { (nodes : List Node) (common : Common) (words : List ℕ) (cells : List Reach) (i : ℕ) → length nodes ≡ length rows.now → IsRows nodes common rows.now → length cells ≡ length nodes → Holds words cells → from ≡ 64 * i → word ≡ get_or words i 0 → IsRow nodes false (front from cells) self.old → IsRow nodes false (front (from + 64) cells) self.new }
    {
        let mut left = word;
        while left != 0 {
            let bit = left.trailing_zeros();
            self.join_place(rows, from + bit as usize);
            left &= !(1 << bit);
        }
    }

    /// Adds what comes next by a place, if there is one.
    fn join_place(&mut self, rows: &[Row], place: usize)
        ensures next { place < length rows.now → (d : Row) (i : ℕ) → i < PLACES → has self.new.next.words i ≡ (has self.old.next.words i || has (get_or rows.now place d).next.words i) }
        ensures found { place < length rows.now → (d : Row) → self.new.found ≡ (self.old.found || (get_or rows.now place d).found) }
        ensures kept { length rows.now ≤ place → self.new ≡ self.old }
    {
        if place < rows.len() {
            self.join(&rows[place]);
        }
    }

    /// Adds what comes next by another.
    pub fn join(&mut self, other: &Row)
        ensures next { (i : ℕ) → i < PLACES → has self.new.next.words i ≡ (has self.old.next.words i || has other.now.next.words i) }
        ensures found { self.new.found ≡ (self.old.found || other.now.found) }
    {
        self.next.unite(&other.next);
        self.found = self.found | other.found;
    }
}

fn followers_of(nodes: &[Node]) -> Followers
    requires room { length nodes.now ≤ PLACES }
    ensures { IsFollowers nodes.now result }
{
    let free = opened(nodes);
    let first = blank_row(nodes, free.as_slice(), false);
    let mut rows = [first; PLACES];
    note_rows(nodes, free.as_slice(), &mut rows);
    let steps = steps_of(&first, &rows);
    let mut masks = [Set::NONE; 256];
    note_masks(nodes, &mut masks);
    let common = Common { first, steps };
    Followers {
        common,
        rows,
        masks,
    }
}

/// Notes what comes next for each place alone.
pub fn note_rows(nodes: &[Node], free: &[Node], rows: &mut [Row])
    requires room { length nodes.now ≤ PLACES }
    requires free { free.now ≡ opened nodes.now }
    requires rows { length nodes.now ≤ length rows.old }
    ensures { (i : ℕ) (d : Row) → i < length nodes.now → IsRow nodes.now false (only (length nodes.now) i) (get_or rows.new i d) }
{
    for i in 0..nodes.len() {
        rows[i] = row_at(nodes, free, i);
    }
}

fn note_masks(nodes: &[Node], masks: &mut [Set; 256])
    requires room { length nodes.now ≤ PLACES }
    ensures { (b : ℕ) (d : Set) → b < 256 → Holds (get_or masks.new b d).words (taking nodes.now b) }
{
    for b in 0..256usize {
        masks[b] = mask_of(nodes, b as u8);
    }
}

/// The symbols that take a byte.
pub fn mask_of(nodes: &[Node], b: u8) -> Set
    requires room { length nodes.now ≤ PLACES }
    ensures { Holds result.words (taking nodes.now b) }
{
    let mut cells = [Reach::EVERYWHERE; PLACES];
    spread(nodes, &mut cells[..nodes.len()], b);
    set_of(&cells[..nodes.len()])
}

/// What comes next where one place is marked.
fn row_at(nodes: &[Node], free: &[Node], place: usize) -> Row
    requires room { length nodes.now ≤ PLACES }
    requires free { free.now ≡ opened nodes.now }
    requires there { place < length nodes.now }
    ensures { IsRow nodes.now false (only (length nodes.now) place) result }
{
    let mut cells = [Reach::NONE; PLACES];
    cells[place] = Reach::marked(true);
    row_of(nodes, free, &mut cells[..nodes.len()], false)
}

/// What comes next where no place is marked.
pub fn blank_row(nodes: &[Node], free: &[Node], start: bool) -> Row
    requires room { length nodes.now ≤ PLACES }
    requires free { free.now ≡ opened nodes.now }
    ensures { IsRow nodes.now start (replicate (length nodes.now) nowhere) result }
{
    let mut cells = [Reach::NONE; PLACES];
    row_of(nodes, free, &mut cells[..nodes.len()], start)
}

/// What comes next by the marks of cells.
fn row_of(nodes: &[Node], free: &[Node], cells: &mut [Reach], start: bool) -> Row
    requires room { length nodes.now ≤ PLACES }
    requires free { free.now ≡ opened nodes.now }
    requires same { length cells.old ≡ length nodes.now }
    ensures { IsRow nodes.now start cells.old result }
{
    let place = Place { start, end: false };
    let found = gather(nodes, cells, place).exits(true);
    spread(free, cells, 0);
    let next = set_of(cells);
    Row { next, found }
}

/// The places of the cells that are marked.
fn set_of(cells: &[Reach]) -> Set
    requires { length cells.now ≤ PLACES }
    ensures { (i : ℕ) → i < length cells.now → has result.words i ≡ (get_or cells.now i nowhere).ended }
{
    let mut set = Set::NONE;
    for i in 0..cells.len() {
        set.put(i, cells[i].ended);
    }
    set
}

/// The table with parts that take any byte.
pub fn opened(nodes: &[Node]) -> Nodes
    requires { length nodes.now ≤ PLACES }
    ensures { result ≡ opened nodes.now }
{
    let mut table = Nodes::new();
    for node in nodes {
        table.push(open_node(*node));
    }
    table
}

fn open_node(node: Node) -> Node
    ensures { result ≡ open_node node }
{
    match node {
        Node::Byte(_) | Node::Range { .. } => Node::Any,
        Node::Member { .. } => Node::Member { first: 1, last: 0 },
        other => other,
    }
}
