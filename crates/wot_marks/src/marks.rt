//! The marks of user IDs, by which another one is held against them.

ghost use Rattle.std.specs.Prelude.{◌≡◌, true, IfOk, OnOk};
ghost use Rattle.std.specs.List.{list_any};
ghost use Rattle.wot_types.specs.Listing.{is_same_user};
ghost use Rattle.wot_marks.specs.Marks.{AreMarked, KeepsMarks, has_mark, mark_of};

use crate::mark::Mark;
use std::alloc::Global;
use std::collections::BTreeSet;
use wot_types::{Mem, User, is_among};

/// Marks in order.
pub type Marks = BTreeSet<Mark>;

/// Adds the mark of a user ID. None is taken away, with memory or without.
pub fn add_mark(alloc: Global, marks: &mut Marks, user: &User) -> Result<(), Mem>
    ensures there { OnOk result (has_mark marks.new (mark_of user.now) ≡ true) }
    ensures keeps { KeepsMarks marks.old marks.new }
{
    marks.insert(Mark::new(alloc, user)?)?;
    Ok(())
}

/// Whether one of these user IDs, whose marks are among these, has the kind, text and hash of the other. They are compared
/// only where the other's mark is there: a key may have so many user IDs that all their texts, held against each other,
/// would be most of what reading them takes.
#[tactic(auto, using(crate::proofs::SameUsers::one_agrees))]
pub fn is_among_marked(
    alloc: Global,
    marks: &Marks,
    users: &[User],
    user: &User,
) -> Result<bool, Mem>
    requires { AreMarked marks.now users.now }
    ensures { IfOk result (λ there. there ≡ list_any (λ other. is_same_user other user.now) users.now) }
{
    let mark = Mark::new(alloc, user)?;
    if !marks.contains(&mark) {
        return Ok(false);
    }
    Ok(is_among(users, user))
}
