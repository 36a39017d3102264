//! What is known of the states that texts come to under an expression, so that each is worked out once.
//!
//! A state is the set of the symbols that are marked there. What comes next is worked out when it is first met. A byte leads to those of these
//! symbols that take it, so a move is noted for all bytes of a class.

ghost use Rattle.std.specs.Prelude.{◌≡◌, ◌≤◌, ◌<◌, ◌==◌, ◌∷◌, Bool, false, true, List, ℕ, length, get_or, IfOk};
ghost use Rattle.wot_types.specs.Scope.{matches_in};
ghost use Rattle.wot_types.specs.Expression.{Tree};
ghost use Rattle.wot_regex.specs.Following.{Holds, Keeps};
ghost use Rattle.wot_regex.specs.Knowing.{found_at};
ghost use Rattle.wot_regex.specs.Searching.{Searching};
ghost use Rattle.wot_regex.specs.States.{IsKnown, IsMove, IsMoves, Leads};
ghost use Rattle.wot_regex.specs.Table.{nodes_of};
ghost use Rattle.wot_regex.specs.declared.known.State.{State};
ghost use Rattle.wot_regex.specs.declared.reach.Reach.{Reach};
ghost use Rattle.wot_regex.specs.declared.set.Set.{Set};

use crate::followers::{Row, blank_row, ends, note_rows, opened, row_from};
use crate::masks::Masks;
use crate::node::Node;
use crate::search::search_from;
use crate::set::{PLACES, Set};
use crate::steps::{Common, steps_of};
use crate::table::{LONG, table_for};
use std::alloc::Global;
use wot_types::Mem;

/// So many states are kept; what a text comes to behind them is worked out anew.
const MOST_STATES: usize = 256;

/// Few expressions have more classes of bytes than these, whose moves stand by themselves: so those of two states share a line of a cache.
const FEW: usize = 32;

/// The moves by so many classes of bytes are kept.
const CLASSES: usize = 2 * FEW;

/// The symbols that are marked at a place of a text, and what comes next.
#[derive(Drop)]
pub struct State {
    pub marks: Set,
    pub row: Row,
    /// Whether a match ends there at the end of the text. It is worked out when a text first ends there.
    pub found_at_end: Option<bool>,
}

/// States, of which the first is the start of a text, and for each of them the state to which each class of bytes leads, or 0 where it is not
/// known.
#[derive(Drop)]
pub struct Known {
    pub alloc: Global,
    /// What comes next inside a text where no place is marked, and which places are steps.
    pub common: Common,
    /// What comes next where one place is marked.
    pub rows: Vec<Row>,
    pub masks: Masks,
    pub states: Vec<State>,
    /// Whether a match ends at each of them inside a text, as its row says. A walk asks it at each byte, and here all of it takes few lines of a cache.
    pub found: [bool; MOST_STATES],
    /// By the first few classes.
    pub moves: Vec<[u8; FEW]>,
    /// By as many further ones.
    pub further: Vec<[u8; FEW]>,
    /// What comes next by each way to mark eight places, once so many bytes were searched that it is worth its making.
    pub table: Option<Vec<Row>>,
    /// How many bytes were searched without it, counted anew whenever it could not be made.
    pub searched: usize,
}

impl Known {
    /// The start of a text.
    pub fn new(alloc: Global, nodes: &[Node]) -> Result<Known, Mem>
        requires room { length nodes.now ≤ PLACES }
        ensures { IfOk result (λ known. IsKnown nodes.now known) }
    {
        let free = opened(nodes);
        let first = blank_row(nodes, free.as_slice(), false);
        let mut rows = vec![in alloc; first; nodes.len()]?;
        note_rows(nodes, free.as_slice(), &mut rows);
        let steps = steps_of(&first, &rows);
        let start = State {
            marks: Set::NONE,
            row: blank_row(nodes, free.as_slice(), true),
            found_at_end: None,
        };
        let mut found = [false; MOST_STATES];
        found[0] = start.row.found;
        let mut states = Vec::new(alloc);
        states.push(start)?;
        let mut moves = Vec::new(alloc);
        moves.push([0; FEW])?;
        let mut further = Vec::new(alloc);
        further.push([0; FEW])?;
        Ok(Known {
            alloc,
            common: Common { first, steps },
            rows,
            masks: Masks::new(alloc),
            states,
            found,
            moves,
            further,
            table: None,
            searched: 0,
        })
    }

    /// About how many bytes it takes.
    pub fn size(&self) -> usize {
        let state = size_of::<State>() + CLASSES;
        let rows = self.rows.len().saturating_mul(size_of::<Row>());
        let sets = self.masks.sets.len().saturating_mul(size_of::<Set>());
        let states = self.states.len().saturating_mul(state);
        size_of::<Known>()
            .saturating_add(rows)
            .saturating_add(sets)
            .saturating_add(states)
            .saturating_add(self.table_size())
    }

    /// Whether no further state is learnt, so that a text may run past those that are known.
    pub fn is_full(&self) -> bool {
        self.states.len() == MOST_STATES
    }

    fn table_size(&self) -> usize {
        match &self.table {
            Some(table) => table.len().saturating_mul(size_of::<Row>()),
            None => 0,
        }
    }

    /// Whether the expression of a table matches somewhere in the text. Where it may grow, what takes much memory may be made for further texts.
    pub fn matches(&mut self, nodes: &[Node], text: &[u8], may_grow: bool) -> bool
        requires room { length nodes.now ≤ PLACES }
        requires known { IsKnown nodes.now self.old }
        ensures known { IsKnown nodes.now self.new }
        ensures found { (tree : Tree) → nodes.now ≡ nodes_of tree → result ≡ matches_in tree text.now }
    {
        let mut at = 0;
        for i in 0..text.len() {
            if self.found[at] {
                return true;
            }
            let next = self.next(nodes, at, text[i]);
            if next == 0 {
                return self.search_rest(nodes, at, text[i], &text[i + 1..], may_grow);
            }
            at = next;
        }
        self.ends(nodes, at)
    }

    /// Whether a match ends at a state where the text ends.
    fn ends(&mut self, nodes: &[Node], at: usize) -> bool
        requires room { length nodes.now ≤ PLACES }
        requires known { IsKnown nodes.now self.old }
        requires there { at < length self.old.states.items }
        ensures known { IsKnown nodes.now self.new }
        ensures found { (d : State) (cells : List Reach) → length cells ≡ length nodes.now → Holds (get_or self.old.states.items at d).marks.words cells → result ≡ found_at nodes.now (at == 0) true cells }
    {
        if let Some(found) = self.states[at].found_at_end {
            return found;
        }
        let found = ends(nodes, &self.states[at].marks, at == 0);
        self.states[at].found_at_end = Some(found);
        found
    }

    /// Whether a match ends in the rest of a text, behind a byte that comes at a state where none ends.
    fn search_rest(&mut self, nodes: &[Node], at: usize, b: u8, rest: &[u8], may_grow: bool) -> bool
        requires room { length nodes.now ≤ PLACES }
        requires known { IsKnown nodes.now self.old }
        requires there { at < length self.old.states.items }
        ensures known { IsKnown nodes.now self.new }
        ensures found { (tree : Tree) (d : State) (cells : List Reach) (found : Bool) → nodes.now ≡ nodes_of tree → length cells ≡ length nodes.now → Holds (get_or self.old.states.items at d).marks.words cells → (get_or self.old.states.items at d).row.found ≡ false → Searching tree cells (at == 0) (b ∷ rest.now) found → result ≡ found }
    {
        self.count(nodes, rest.len(), may_grow);
        let mut marks = self.states[at].row.next;
        marks.meet(&self.masks.mask(nodes, b));
        search_from(
            nodes,
            &self.common,
            &self.rows,
            self.table.as_ref(),
            &mut self.masks,
            marks,
            rest,
        )
    }

    /// Counts bytes that are to be searched without a table, and makes one when they are many, if it may. Where none is made, as for want of memory,
    /// they are counted anew.
    fn count(&mut self, nodes: &[Node], bytes: usize, may_grow: bool)
        requires room { length nodes.now ≤ PLACES }
        requires known { IsKnown nodes.now self.old }
        ensures known { IsKnown nodes.now self.new }
        ensures states { self.new.states ≡ self.old.states }
    {
        if !may_grow || self.table.is_some() {
            return;
        }
        self.searched = self.searched.saturating_add(bytes);
        if LONG <= self.searched {
            self.table = table_for(self.alloc, nodes, &self.common, &self.rows);
            self.searched = 0;
        }
    }

    /// The state to which a byte leads, and 0 where there is no room for it.
    fn next(&mut self, nodes: &[Node], at: usize, b: u8) -> usize
        requires room { length nodes.now ≤ PLACES }
        requires known { IsKnown nodes.now self.old }
        requires there { at < length self.old.states.items }
        ensures known { IsKnown nodes.now self.new }
        ensures kept { Keeps self.old.states.items self.new.states.items }
        ensures moves { 0 < result → Leads nodes.now self.new.states.items at b result }
    {
        match self.masks.class(nodes, b) {
            Some(class) => self.next_by(nodes, at, class),
            None => 0,
        }
    }

    /// The same for the bytes of a class.
    fn next_by(&mut self, nodes: &[Node], at: usize, class: usize) -> usize
        requires room { length nodes.now ≤ PLACES }
        requires known { IsKnown nodes.now self.old }
        requires there { at < length self.old.states.items }
        requires class { class < length self.old.masks.sets.items }
        ensures known { IsKnown nodes.now self.new }
        ensures masks { self.new.masks ≡ self.old.masks }
        ensures kept { Keeps self.old.states.items self.new.states.items }
        ensures moves { 0 < result → (d : Set) → IsMove self.new.states.items at (get_or self.old.masks.sets.items class d) result }
    {
        let noted = self.noted(at, class);
        if noted != 0 {
            return noted;
        }
        if CLASSES <= class {
            return 0;
        }
        self.learn(nodes, at, class)
    }

    /// The state to which a class is known to lead; 0 where none is known.
    fn noted(&self, at: usize, class: usize) -> usize
        requires there { at < length self.now.states.items }
        requires moves { IsMoves self.now.masks.sets.items self.now.states.items 0 self.now.moves.items }
        requires further { IsMoves self.now.masks.sets.items self.now.states.items 32 self.now.further.items }
        ensures moves { 0 < result → (d : Set) → IsMove self.now.states.items at (get_or self.now.masks.sets.items class d) result }
    {
        if class < FEW {
            return self.moves[at][class] as usize;
        }
        if class < CLASSES {
            return self.further[at][class - FEW] as usize;
        }
        0
    }

    /// Works out the state to which a class leads; 0 where there is no room for it.
    fn learn(&mut self, nodes: &[Node], at: usize, class: usize) -> usize
        requires room { length nodes.now ≤ PLACES }
        requires known { IsKnown nodes.now self.old }
        requires there { at < length self.old.states.items }
        requires class { class < length self.old.masks.sets.items }
        requires few { class < CLASSES }
        ensures known { IsKnown nodes.now self.new }
        ensures masks { self.new.masks ≡ self.old.masks }
        ensures kept { Keeps self.old.states.items self.new.states.items }
        ensures moves { 0 < result → (d : Set) → IsMove self.new.states.items at (get_or self.old.masks.sets.items class d) result }
    {
        let mut marks = self.states[at].row.next;
        marks.meet(&self.masks.sets[class]);
        let Ok(to) = self.place(nodes, marks) else {
            return 0;
        };
        self.note(nodes, at, class, to);
        to
    }

    /// The state that has the marks, new or not; 0 where there is no room for it.
    fn place(&mut self, nodes: &[Node], marks: Set) -> Result<usize, Mem>
        requires room { length nodes.now ≤ PLACES }
        requires known { IsKnown nodes.now self.old }
        ensures known { IsKnown nodes.now self.new }
        ensures masks { self.new.masks ≡ self.old.masks }
        ensures kept { Keeps self.old.states.items self.new.states.items }
        ensures there { IfOk result (λ to. to < length self.new.states.items) }
        ensures placed { IfOk result (λ to. 0 < to → (d : State) → (get_or self.new.states.items to d).marks.words ≡ marks.words) }
    {
        for i in 1..self.states.len() {
            if self.states[i].marks.is(&marks) {
                return Ok(i);
            }
        }
        if self.states.len() == MOST_STATES {
            return Ok(0);
        }
        self.add(nodes, marks)
    }

    fn add(&mut self, nodes: &[Node], marks: Set) -> Result<usize, Mem>
        requires room { length nodes.now ≤ PLACES }
        requires few { length self.old.states.items < MOST_STATES }
        requires known { IsKnown nodes.now self.old }
        ensures known { IsKnown nodes.now self.new }
        ensures masks { self.new.masks ≡ self.old.masks }
        ensures kept { Keeps self.old.states.items self.new.states.items }
        ensures there { IfOk result (λ to. to < length self.new.states.items) }
        ensures placed { IfOk result (λ to. (d : State) → (get_or self.new.states.items to d).marks.words ≡ marks.words) }
    {
        let to = self.states.len();
        let row = row_from(&self.common, &self.rows, &marks);
        self.moves.push([0; FEW])?;
        self.further.push([0; FEW])?;
        self.found[to] = row.found;
        self.states.push(State {
            marks,
            row,
            found_at_end: None,
        })?;
        Ok(to)
    }

    /// Notes that a class leads from a state to another, unless that is 0.
    fn note(&mut self, nodes: &[Node], at: usize, class: usize, to: usize)
        requires known { IsKnown nodes.now self.old }
        requires there { at < length self.old.states.items }
        requires class { class < length self.old.masks.sets.items }
        requires few { class < CLASSES }
        requires moves { 0 < to → (d : Set) → IsMove self.old.states.items at (get_or self.old.masks.sets.items class d) to }
        requires in_range { to < length self.old.states.items }
        ensures known { IsKnown nodes.now self.new }
        ensures masks { self.new.masks ≡ self.old.masks }
        ensures states { self.new.states ≡ self.old.states }
    {
        if class < FEW {
            self.moves[at][class] = to as u8;
        } else {
            self.further[at][class - FEW] = to as u8;
        }
    }
}
