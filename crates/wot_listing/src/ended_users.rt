//! The user IDs of a block that a line has ended.

ghost use Rattle.std.specs.Prelude.{◌≡◌, ◌∷◌, [], ◌++◌, length, IfOk, OnOk};
ghost use Rattle.std.specs.List.{list_any};
ghost use Rattle.wot_types.specs.Listing.{is_same_user};

use std::alloc::Global;
use std::marker::Model;
use wot_marks::{Marks, add_mark, is_among_marked};
use wot_types::{List, Mem, User, Users};

/// User IDs in the order in which they came, with marks by which a new one is held against them.
///
/// The first has none, and is compared always, since most keys have no other.
#[derive(Debug, Drop)]
pub struct EndedUsers {
    users: Users,
    marks: Marks,
    alloc: Global,
}

impl Model for EndedUsers {
    ghost use Rattle.std.specs.Prelude.{List};
    ghost use Rattle.std.specs.Coded.{coded_list};
    ghost use Rattle.wot_types.specs.declared.user.User.{User};
    ghost use Rattle.wot_types.specs.contracts.user.User as user_struct;
    ghost use Rattle.wot_listing.specs.Others.{OthersAreMarked};

    ghost Value = { List User };

    ghost coded = { coded_list user_struct.the_row.coded };

    ghost view = { λ ended. ended.users };

    ghost invariant = { λ ended. OthersAreMarked ended.marks ended.users };
}

impl EndedUsers {
    /// No user IDs, with room for one, as most keys have.
    pub fn new(alloc: Global) -> Result<EndedUsers, Mem>
        ensures { IfOk result (λ ended. ended ≡ []) }
    {
        Ok(EndedUsers {
            users: List::with_capacity(alloc, 1)?,
            marks: Marks::new(alloc),
            alloc,
        })
    }

    pub fn len(&self) -> usize
        ensures { result ≡ length self.now }
    {
        self.users.len()
    }

    /// Whether one of these has the kind, text and hash of the other.
    pub fn contains(&self, user: &User) -> Result<bool, Mem>
        ensures { IfOk result (λ there. there ≡ list_any (λ earlier. is_same_user earlier user.now) self.now) }
    {
        match self.users.as_slice() {
            [] => Ok(false),
            [only] => Ok(only.is_same(user)),
            [first, others @ ..] => {
                Ok(first.is_same(user) || is_among_marked(self.alloc, &self.marks, others, user)?)
            }
        }
    }

    pub fn push(&mut self, user: User) -> Result<(), Mem>
        ensures { OnOk result (self.new ≡ self.old ++ user ∷ []) }
    {
        if !self.users.is_empty() {
            add_mark(self.alloc, &mut self.marks, &user)?;
        }
        self.users.push(user)?;
        Ok(())
    }

    pub fn into_users(self) -> Users
        ensures { result ≡ self }
    {
        let EndedUsers {
            users,
            marks: _,
            alloc: _,
        } = self;
        users
    }
}
