//! Places that only lead to the symbol behind them, as most do: the marks of these are moved together.
//!
//! Where symbols follow each other, the next stands two places on, behind the part that joins the symbols so far.

ghost use Rattle.std.specs.Prelude.{◌≡◌, ◌≤◌, ◌<◌, ◌||◌, ℕ, true, length};
ghost use Rattle.wot_regex.specs.Following.{AreSteps, IsStep, has, two_on};

use crate::followers::Row;
use crate::set::{PLACES, Set};

/// What comes next inside a text where no place is marked, and the places that only lead two on beside that.
#[derive(Clone, Copy)]
pub struct Common {
    pub first: Row,
    pub steps: Set,
}

/// What comes next by marks that are all of steps.
pub fn row_by_steps(first: &Row, marks: &Set) -> Row
    ensures next { (i : ℕ) → i < PLACES → has result.next.words i ≡ (has first.now.next.words i || two_on (has marks.now.words) i) }
    ensures found { result.found ≡ first.now.found }
{
    let mut row = *first;
    row.next.unite(&marks.two_on());
    row
}

/// The places that are steps, by what comes next for each place alone.
pub fn steps_of(first: &Row, rows: &[Row]) -> Set
    requires { length rows.now ≤ PLACES }
    ensures { AreSteps first.now result rows.now }
{
    let mut steps = Set::NONE;
    for i in 0..rows.len() {
        steps.put(i, is_step(first, &rows[i], i));
    }
    steps
}

/// Whether a place only leads two on, by what comes next for it alone.
fn is_step(first: &Row, row: &Row, place: usize) -> bool
    requires { place < PLACES }
    ensures { result ≡ true → IsStep first.now row.now place }
{
    let mut alone = Set::NONE;
    alone.add(place);
    let step = row_by_steps(first, &alone);
    row.found == step.found && row.next.is(&step.next)
}
