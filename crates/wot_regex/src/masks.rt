//! Which symbols of a table take each byte. Bytes that the same symbols take are of one class.

ghost use Rattle.std.specs.Prelude.{◌≡◌, ◌≤◌, ◌<◌, ℕ, List, length, get_or, true, IfSome};
ghost use Rattle.wot_regex.specs.Following.{Holds, IsMasks, Keeps, taking};
ghost use Rattle.wot_regex.specs.declared.node.Node.{Node};
ghost use Rattle.wot_regex.specs.declared.set.Set.{Set};

use crate::followers::mask_of;
use crate::node::Node;
use crate::set::{PLACES, Set};
use std::alloc::Global;

/// So many classes at most, as many as there are bytes.
const MOST_CLASSES: usize = 256;

/// The classes of the bytes that were met, and the symbols that take the bytes of each class.
#[derive(Drop)]
pub struct Masks {
    pub classes: [Option<u8>; 256],
    pub sets: Vec<Set>,
}

impl Masks {
    pub fn new(alloc: Global) -> Masks
        ensures { (nodes : List Node) → IsMasks nodes result }
    {
        let sets = Vec::new(alloc);
        Masks {
            classes: [None; 256],
            sets,
        }
    }

    /// The symbols that take a byte.
    pub fn mask(&mut self, nodes: &[Node], b: u8) -> Set
        requires room { length nodes.now ≤ PLACES }
        requires masks { IsMasks nodes.now self.old }
        ensures masks { IsMasks nodes.now self.new }
        ensures kept { Keeps self.old.sets.items self.new.sets.items }
        ensures takes { Holds result.words (taking nodes.now b) }
    {
        match self.class(nodes, b) {
            Some(class) => self.sets[class],
            None => mask_of(nodes, b),
        }
    }

    /// The class of a byte, unless memory is wanting for it.
    pub fn class(&mut self, nodes: &[Node], b: u8) -> Option<usize>
        requires room { length nodes.now ≤ PLACES }
        requires masks { IsMasks nodes.now self.old }
        ensures masks { IsMasks nodes.now self.new }
        ensures kept { Keeps self.old.sets.items self.new.sets.items }
        ensures there { IfSome result (λ class. class < length self.new.sets.items) }
        ensures takes { IfSome result (λ class. (d : Set) → Holds (get_or self.new.sets.items class d).words (taking nodes.now b)) }
    {
        match self.classes[b as usize] {
            Some(class) => Some(class as usize),
            None => self.learn(nodes, b),
        }
    }

    /// Works out the class of a byte.
    fn learn(&mut self, nodes: &[Node], b: u8) -> Option<usize>
        requires room { length nodes.now ≤ PLACES }
        requires masks { IsMasks nodes.now self.old }
        ensures masks { IsMasks nodes.now self.new }
        ensures kept { Keeps self.old.sets.items self.new.sets.items }
        ensures there { IfSome result (λ class. class < length self.new.sets.items) }
        ensures takes { IfSome result (λ class. (d : Set) → Holds (get_or self.new.sets.items class d).words (taking nodes.now b)) }
    {
        let class = place(&mut self.sets, mask_of(nodes, b))?;
        self.classes[b as usize] = Some(class as u8);
        Some(class)
    }
}

/// The place of a set among others, to which it is added where it is not there.
fn place(sets: &mut Vec<Set>, set: Set) -> Option<usize>
    ensures kept { Keeps sets.old.items sets.new.items }
    ensures few { IfSome result (λ place. place < MOST_CLASSES) }
    ensures there { IfSome result (λ place. place < length sets.new.items) }
    ensures placed { IfSome result (λ place. (d : Set) → (get_or sets.new.items place d).words ≡ set.words) }
{
    if let Some(place) = find(sets, &set) {
        return Some(place);
    }
    let place = sets.len();
    if place >= MOST_CLASSES {
        return None;
    }
    sets.push(set).ok()?;
    Some(place)
}

/// The place of a set among the first others.
fn find(sets: &[Set], set: &Set) -> Option<usize>
    ensures few { IfSome result (λ place. place < MOST_CLASSES) }
    ensures there { IfSome result (λ place. place < length sets.now) }
    ensures placed { IfSome result (λ place. (d : Set) → (get_or sets.now place d).words ≡ set.now.words) }
{
    for i in 0..sets.len().min(MOST_CLASSES) {
        if sets[i].is(set) {
            return Some(i);
        }
    }
    None
}
