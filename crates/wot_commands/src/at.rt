//! The words of a query of an earlier state.

ghost use Rattle.std.specs.Prelude.{◌≡◌, Ok, true, IfOk, codes};
ghost use Rattle.wot_types.specs.Bytes.{is_word};
ghost use Rattle.wot_types.specs.Grammar.{argument, at_head, edit_count};
ghost use Rattle.wot_commands.specs.Arguments.{argument_at};
ghost use Rattle.wot_commands.specs.Heads.{IsProperHead};

use crate::arguments::{fingerprint_at, long_at, none_at, number_at, word_at};
use wot_types::{Head, Query, Refusal, Text};

/// `at N list`, `at N list FPR`, `at N why FPR PLACE`
pub fn read_at(arguments: &[Text]) -> Result<Head, Refusal>
    ensures head { result ≡ at_head arguments.now }
    ensures proper { IfOk result IsProperHead }
{
    let edits = long_at(arguments, 1)?;
    match word_at(arguments, 2) {
        Some(name) if name == b"list".as_slice() => read_at_list(arguments, edits),
        Some(name) if name == b"why".as_slice() => read_at_why(arguments, edits),
        _ => Err(Refusal::BadArgument(2)),
    }
}

/// `at N list`, `at N list FPR`, whose first two words were read.
fn read_at_list(arguments: &[Text], edits: u64) -> Result<Head, Refusal>
    requires edits { argument_at edit_count arguments.now 1 ≡ Ok edits }
    requires list { is_word (codes "list") (argument 1 arguments.now) ≡ true }
    ensures head { result ≡ at_head arguments.now }
    ensures proper { IfOk result IsProperHead }
{
    if arguments.len() == 2 {
        return Ok(Head::Query(Query::AtList(edits)));
    }
    let fpr = fingerprint_at(arguments, 3)?;
    none_at(arguments, 4)?;
    Ok(Head::Query(Query::AtListOne(edits, fpr)))
}

/// `at N why FPR PLACE`, whose first two words were read.
fn read_at_why(arguments: &[Text], edits: u64) -> Result<Head, Refusal>
    requires edits { argument_at edit_count arguments.now 1 ≡ Ok edits }
    requires why { is_word (codes "why") (argument 1 arguments.now) ≡ true }
    ensures head { result ≡ at_head arguments.now }
    ensures proper { IfOk result IsProperHead }
{
    let fpr = fingerprint_at(arguments, 3)?;
    let place = number_at(arguments, 4, 1, u32::MAX)?;
    none_at(arguments, 5)?;
    Ok(Head::Query(Query::AtWhy(edits, fpr, place)))
}
