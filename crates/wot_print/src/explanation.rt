//! The reply that explains why a user ID is as valid as it is.

ghost use Rattle.std.specs.Prelude.{◌≡◌, ◌+◌, ◌++◌, ℕ, [], IfOk, OnOk};
ghost use Rattle.std.specs.List.{flat_map};
ghost use Rattle.std.specs.Option.{option_map_or};
ghost use Rattle.wot_types.specs.Printing.{ended_field, key_id_text};
ghost use Rattle.wot_types.specs.State.{State};
ghost use Rattle.wot_types.specs.CutState as cutting;
ghost use Rattle.wot_types.specs.Explanation.{explanation};
ghost use Rattle.wot_types.specs.WhyText.{by_line, count_fields, cut_line, letter_of, row_line, why_line, why_text};
ghost use Rattle.wot_explain.specs.Explained.{Explains};
ghost use Rattle.wot_print.specs.ToldText.{shown_counted, told_text};

use std::alloc::Global;
use wot_explain::{Counted, Why};
use wot_fields::{Printed, Sink};
use wot_lines::{
    letter_text, push_field, push_key_id_field, push_number_field, push_scope, trust_text,
};
use wot_types::{Count, KeyId, Letter, Mem, Row};

/// The explanation of a user ID, whose place counts from 1, and its letter over the cut keyring.
pub fn why(alloc: Global, id: KeyId, place: u32, why: &Why, cut: Letter) -> Result<Vec<u8>, Mem>
    ensures lines { (user : ℕ) → place ≡ user + 1 → IfOk result (λ text. text.items ≡ told_text id user why.now cut) }
    ensures explained { (s : State) (user : ℕ) → place ≡ user + 1 → Explains s id user why.now → cut ≡ letter_of (cutting.cut s (explanation s id user) id) id user
        → IfOk result (λ text. text.items ≡ why_text s id user) }
{
    let mut text = Printed::new(alloc);
    push_why(&mut text, id, place, why.letter, &why.count)?;
    push_rows(&mut text, why.rows.as_slice())?;
    push_counted(&mut text, why.counted.as_slice())?;
    push_cut(&mut text, cut)?;
    text.into_vec()
}

/// `why:LETTER:KEYID:PLACE:ULTIMATE:FULL:MARGINAL:OTHER:`
fn push_why(
    text: &mut Printed,
    id: KeyId,
    place: u32,
    letter: Letter,
    count: &Count,
) -> Result<(), Mem>
    ensures { (user : ℕ) → place ≡ user + 1 → OnOk result (text.new ≡ text.old ++ why_line id user letter count.now) }
{
    text.push_bytes(b"why:")?;
    push_field(text, letter_text(letter))?;
    push_key_id_field(text, id)?;
    push_number_field(text, place)?;
    push_count(text, count)?;
    text.push(b'\n')?;
    Ok(())
}

/// The candidates by their trust.
fn push_count(text: &mut Printed, count: &Count) -> Result<(), Mem>
    ensures { OnOk result (text.new ≡ text.old ++ count_fields count.now) }
{
    push_number_field(text, count.ultimate)?;
    push_number_field(text, count.full)?;
    push_number_field(text, count.marginal)?;
    push_number_field(text, count.other)?;
    Ok(())
}

/// A line for each introducer of the explanation.
fn push_rows(text: &mut Printed, rows: &[Row]) -> Result<(), Mem>
    ensures { OnOk result (text.new ≡ text.old ++ flat_map row_line rows.now) }
{
    for row in rows {
        push_row(text, row)?;
    }
    Ok(())
}

/// `row:KEYID:LEVEL:TRUST:LEFT:SCOPE:VIA:`
fn push_row(text: &mut Printed, row: &Row) -> Result<(), Mem>
    ensures { OnOk result (text.new ≡ text.old ++ row_line row.now) }
{
    text.push_bytes(b"row:")?;
    push_key_id_field(text, row.key)?;
    push_number_field(text, u32::from(row.level))?;
    push_field(text, trust_text(row.trust))?;
    push_number_field(text, u32::from(row.left))?;
    push_scope(text, row.scope.as_ref())?;
    push_via(text, row.via)?;
    text.push(b'\n')?;
    Ok(())
}

/// The key ID of whoever delegated to an introducer, or an empty field.
fn push_via(text: &mut Printed, via: Option<KeyId>) -> Result<(), Mem>
    ensures { OnOk result (text.new ≡ text.old ++ ended_field (option_map_or key_id_text via [])) }
{
    match via {
        Some(id) => push_key_id_field(text, id),
        None => push_field(text, b""),
    }
}

/// A line for each candidate.
fn push_counted(text: &mut Printed, counted: &[Counted]) -> Result<(), Mem>
    ensures { OnOk result (text.new ≡ text.old ++ flat_map (λ c. by_line (shown_counted c)) counted.now) }
{
    for candidate in counted {
        push_by(text, candidate)?;
    }
    Ok(())
}

/// `by:KEYID:TRUST:`
fn push_by(text: &mut Printed, candidate: &Counted) -> Result<(), Mem>
    ensures { OnOk result (text.new ≡ text.old ++ by_line (shown_counted candidate.now)) }
{
    text.push_bytes(b"by:")?;
    push_key_id_field(text, candidate.key)?;
    push_field(text, trust_text(candidate.trust))?;
    text.push(b'\n')?;
    Ok(())
}

/// `cut:LETTER:`
fn push_cut(text: &mut Printed, letter: Letter) -> Result<(), Mem>
    ensures { OnOk result (text.new ≡ text.old ++ cut_line letter) }
{
    text.push_bytes(b"cut:")?;
    push_field(text, letter_text(letter))?;
    text.push(b'\n')?;
    Ok(())
}
