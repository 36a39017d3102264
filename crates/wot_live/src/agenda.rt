//! When each of the listed keys is to be looked at.

ghost use Rattle.std.specs.Prelude.{◌≡◌, ◌≤◌, ◌<◌, ◌+◌, ◌++◌, ℕ, true, [], ◌∷◌, length, IfOk, OnOk};
ghost use Rattle.wot_levels.specs.Certifiers.{is_level_of};
ghost use Rattle.wot_live.specs.Agenda.{HasAt, HasMoreOf, IsPutOff, due_at, is_due};
ghost use Rattle.wot_live.specs.Recounting.{among};

use std::alloc::Global;
use std::marker::Model;
use std::mem;
use wot_types::{KeyId, List, Mem};

/// Keys by the levels at which their rows may change, from level 0 on. Levels are one wider than those of rows, for a level behind the last.
#[derive(Drop)]
pub struct Agenda {
    lists: Vec<List<KeyId>>,
}

impl Model for Agenda {
    ghost use Rattle.std.specs.Prelude.{ℕ, List};
    ghost use Rattle.std.specs.Coded.{coded_ℕ, coded_list};

    ghost Value = { List (List ℕ) };

    ghost coded = { coded_list (coded_list coded_ℕ) };

    ghost view = { λ a. a.lists.items };
}

/// An agenda, and the keys that were taken off it.
#[derive(Drop)]
pub struct Due {
    pub agenda: Agenda,
    pub ids: List<KeyId>,
}

impl Agenda {
    /// With no key on it, which takes no memory.
    pub fn new(alloc: Global) -> Agenda
        ensures { result ≡ [] }
    {
        Agenda {
            lists: Vec::new(alloc),
        }
    }

    /// Takes the keys of a level off.
    pub fn take(self, alloc: Global, level: u16) -> Due
        ensures ids { result.ids ≡ due_at self level }
        ensures agenda { HasAt self level [] result.agenda }
    {
        let Agenda { mut lists } = self;
        let ids = take_at(&mut lists, alloc, level as usize);
        Due {
            agenda: Agenda { lists },
            ids,
        }
    }

    /// Puts a key on it at a level.
    pub fn add(self, alloc: Global, level: u16, id: KeyId) -> Result<Agenda, Mem>
        ensures { IfOk result (HasAt self level (due_at self level ++ id ∷ [])) }
    {
        let Agenda { lists } = self;
        let mut lists = with_place(lists, alloc, level as usize)?;
        push_at(&mut lists, level as usize, id)?;
        Ok(Agenda { lists })
    }

    /// Puts these keys on it at a level.
    pub fn add_all(self, alloc: Global, level: u16, more: &[KeyId]) -> Result<Agenda, Mem>
        ensures { IfOk result (IsPutOff (among more.now) level self) }
    {
        let mut agenda = self;
        for id in more {
            agenda = agenda.add(alloc, level, *id)?;
        }
        Ok(agenda)
    }

    /// Puts a key on it at this level, unless that is below the first that is still to come.
    pub fn add_from(self, alloc: Global, first: u16, level: u16, id: KeyId) -> Result<Agenda, Mem>
        ensures there { IfOk result (λ new. first ≤ level → is_due new level id ≡ true) }
        ensures more { IfOk result (HasMoreOf (id ∷ []) self) }
    {
        if level < first {
            return Ok(self);
        }
        self.add(alloc, level, id)
    }

    /// Puts a key on it at the level behind each of these.
    pub fn add_behind(
        self,
        alloc: Global,
        first: u16,
        levels: &[u8],
        id: KeyId,
    ) -> Result<Agenda, Mem>
        ensures there { IfOk result (λ new. (n : ℕ) → is_level_of levels.now n ≡ true → first ≤ n + 1 → is_due new (n + 1) id ≡ true) }
        ensures more { IfOk result (HasMoreOf (id ∷ []) self) }
    {
        let mut agenda = self;
        for level in levels {
            agenda = agenda.add_from(alloc, first, *level as u16 + 1, id)?;
        }
        Ok(agenda)
    }
}

/// With a list at a place, and at each before it.
fn with_place(lists: Vec<List<KeyId>>, alloc: Global, place: usize) -> Result<Vec<List<KeyId>>, Mem>
    ensures there { IfOk result (λ new. place < length new.items) }
    ensures same { IfOk result (λ new. (m : ℕ) → due_at new.items m ≡ due_at lists.items m) }
{
    let mut lists = lists;
    while lists.len() <= place {
        lists.push(List::new(alloc))?;
    }
    Ok(lists)
}

/// Takes out the list at a place, if one is there.
fn take_at(lists: &mut Vec<List<KeyId>>, alloc: Global, place: usize) -> List<KeyId>
    ensures ids { result ≡ due_at lists.old.items place }
    ensures left { HasAt lists.old.items place [] lists.new.items }
{
    match lists.get_mut(place) {
        Some(ids) => mem::replace(ids, List::new(alloc)),
        None => List::new(alloc),
    }
}

/// Adds a key to the list at a place.
fn push_at(lists: &mut Vec<List<KeyId>>, place: usize, id: KeyId) -> Result<(), Mem>
    requires there { place < length lists.old.items }
    ensures { OnOk result (HasAt lists.old.items place (due_at lists.old.items place ++ id ∷ []) lists.new.items) }
{
    lists[place].push(id)
}
