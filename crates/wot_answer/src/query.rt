//! What a query is answered with.

ghost use Rattle.std.specs.Prelude.{◌≡◌, ◌++◌, ◌-◌, ◌<◌, ◌≤◌, false, length, None, Some, IsSome, IfOk};
ghost use Rattle.std.specs.FinMap as map;
ghost use Rattle.wot_types.specs.Arrangement.{spot_at};
ghost use Rattle.wot_types.specs.CutState.{cut};
ghost use Rattle.wot_types.specs.Explanation.{explained_rows, explanation};
ghost use Rattle.wot_types.specs.Keyring.{has_fpr};
ghost use Rattle.wot_types.specs.Letters.{letter_at};
ghost use Rattle.wot_types.specs.Outcome.{answer_to, earlier_outcome, ok_line, outcome_in, query_outcome, query_refusal, reply_to, unless_user, user_count};
ghost use Rattle.wot_types.specs.Numbers.{capped};
ghost use Rattle.wot_types.specs.WhyText.{why_text};
ghost use Rattle.wot_types.specs.Store.{Store};
ghost use Rattle.wot_commands.specs.Heads.{IsProperQuery};
ghost use Rattle.wot_answer.specs.Answer.{Ends, IsEarlierQuery, IsPresentQuery, effect_by, is_err, reply_of};

use crate::answer::Answered;
use crate::reply::{Answer, Effect, Reply, refuse};
use crate::supposing::{changes_text, losses_text};
use std::alloc::Global;
use std::marker::Brand;
use std::sync::ledger::{Blank, Ledger};
use wot_commands::refusal;
use wot_explain::{Why, cut, explain, recount};
use wot_lines::{OK_LINE, refused};
use wot_live::Engine;
use wot_print::{export, list, why};
use wot_table::LentState;
use wot_types::{Fpr, KeyId, Letter, Mem, Query, Refusal, Steps};

/// Answers a query; the state stays. The store has had so many edits since its base.
pub fn answer_query(
    alloc: Global,
    engine: Engine,
    records: u64,
    query: Query,
) -> Result<Answered, Mem>
    requires proper { IsProperQuery query }
    ensures ends { IfOk result (λ answered. (s : Store) → engine ≡ s.state → capped records ≡ capped (length s.edits)
        → Ends answered s (query_outcome s query)) }
{
    match query {
        Query::AtList(edits) => ask_earlier(alloc, engine, records, edits, Query::List),
        Query::AtListOne(edits, fpr) => ask_earlier(
            alloc,
            engine,
            records,
            edits,
            Query::ListOne(fpr),
        ),
        Query::AtWhy(edits, fpr, place) => ask_earlier(
            alloc,
            engine,
            records,
            edits,
            Query::Why(fpr, place),
        ),
        query => answer_now(alloc, engine, query),
    }
}

/// Asks a query of the state after the first so many edits, unless there are fewer.
fn ask_earlier(
    alloc: Global,
    engine: Engine,
    records: u64,
    edits: u64,
    query: Query,
) -> Result<Answered, Mem>
    requires earlier { IsEarlierQuery query }
    ensures ends { IfOk result (λ answered. (s : Store) → engine ≡ s.state → capped records ≡ capped (length s.edits)
        → Ends answered s (earlier_outcome s edits query)) }
{
    if edits > records {
        return refuse(alloc, engine, Refusal::NoSuchTime(records));
    }
    let answer = Answer::Earlier(edits, query);
    Ok(Answered { engine, answer })
}

/// Answers a query of the engine's state.
fn answer_now(alloc: Global, engine: Engine, query: Query) -> Result<Answered, Mem>
    requires proper { IsPresentQuery query }
    ensures ends { IfOk result (λ answered. (s : Store) → engine ≡ s.state → Ends answered s (outcome_in s.state query)) }
{
    let effect = effect_of(&query);
    let (engine, reply) = answer_in(alloc, engine, query)?;
    let answer = Answer::Told(reply, effect);
    Ok(Answered { engine, answer })
}

/// The reply to a query in the state of this engine, which is handed back with the same state.
pub fn answer_in(alloc: Global, engine: Engine, query: Query) -> Result<(Engine, Reply), Mem>
    requires proper { IsPresentQuery query }
    ensures engine { IfOk result (λ r. r.0 ≡ engine) }
    ensures reply { IfOk result (λ r. reply_of r.1 engine ≡ (outcome_in engine query).text) }
    ensures refused { IfOk result (λ r. is_err r.1 ≡ (outcome_in engine query).refused) }
{
    match query_refusal(&engine, &query) {
        Some(refusal) => {
            let line = refused(alloc, &refusal)?;
            Ok((engine, Reply::Refused(line)))
        }
        None => query_reply(alloc, engine, query),
    }
}

/// Why a query has no answer: its key or its user ID isn't there, or the edit that it supposes can't be made.
fn query_refusal(engine: &Engine, query: &Query) -> Option<Refusal>
    requires proper { IsPresentQuery query.now }
    ensures { result ≡ query_refusal engine.now query.now }
{
    match query {
        Query::ListOne(fpr) | Query::SigsOne(fpr) => {
            if engine.table().has_fpr(fpr) {
                None
            } else {
                Some(Refusal::NoSuchKey)
            }
        }
        Query::Why(fpr, place) | Query::Critical(fpr, place) => missing_user(engine, fpr, *place),
        Query::Suppose(edit) => refusal(engine, edit),
        _ => None,
    }
}

/// Why there is no user ID at a place, counted from 1, of the key of a fingerprint.
fn missing_user(engine: &Engine, fpr: &Fpr, place: u32) -> Option<Refusal>
    ensures { result ≡ unless_user engine.now fpr.now place }
{
    if !engine.table().has_fpr(fpr) {
        Some(Refusal::NoSuchKey)
    } else if place > user_count(engine, fpr.key_id()) {
        Some(Refusal::NoSuchUser)
    } else {
        None
    }
}

/// How many user IDs a key has.
fn user_count(engine: &Engine, id: KeyId) -> u32
    ensures { result ≡ user_count engine.now id }
{
    match engine.table().key(id) {
        Some(key) => key.users,
        None => 0,
    }
}

/// What a query does to the store.
fn effect_of(query: &Query) -> Effect
    ensures { result ≡ effect_by query.now }
{
    match query {
        Query::Compact => Effect::Compact,
        _ => Effect::Nothing,
    }
}

/// A query's reply. What is supposed is tried on the engine itself, which is handed back as it was.
fn query_reply(alloc: Global, engine: Engine, query: Query) -> Result<(Engine, Reply), Mem>
    requires proper { IsPresentQuery query }
    requires answered { query_refusal engine query ≡ None }
    ensures engine { IfOk result (λ r. r.0 ≡ engine) }
    ensures reply { IfOk result (λ r. reply_of r.1 engine ≡ reply_to engine query) }
    ensures accepted { IfOk result (λ r. is_err r.1 ≡ false) }
{
    match query {
        Query::Suppose(edit) => {
            let (engine, text) = changes_text(alloc, engine, edit)?;
            Ok((engine, Reply::Text(text)))
        }
        Query::Critical(fpr, place) => {
            let (engine, text) = losses_text(alloc, engine, fpr.key_id(), place)?;
            Ok((engine, Reply::Text(text)))
        }
        query => {
            let reply = reply_with_ok(alloc, &engine, &query)?;
            Ok((engine, reply))
        }
    }
}

/// The reply to a query whose last line is `ok`.
fn reply_with_ok(alloc: Global, engine: &Engine, query: &Query) -> Result<Reply, Mem>
    requires proper { IsPresentQuery query.now }
    requires answered { query_refusal engine.now query.now ≡ None }
    ensures reply { IfOk result (λ reply. reply_of reply engine.now ≡ answer_to engine.now query.now ++ ok_line) }
    ensures accepted { IfOk result (λ reply. is_err reply ≡ false) }
{
    let mut text = match query {
        Query::Check => return Ok(Reply::Tally),
        Query::List => return Ok(Reply::List),
        Query::Sigs => return Ok(Reply::Sigs),
        Query::ListOne(fpr) => list(alloc, engine, Some(fpr.key_id()), false)?,
        Query::SigsOne(fpr) => list(alloc, engine, Some(fpr.key_id()), true)?,
        Query::Export => export(alloc, engine)?,
        Query::Why(fpr, place) => explanation_text(alloc, engine, fpr.key_id(), *place)?,
        // `compact` and `quit` are answered with the last line alone.
        _ => Vec::new(alloc),
    };
    text.extend_from_slice(OK_LINE)?;
    Ok(Reply::Text(text))
}

/// Why the user ID at a place, counted from 1, is as valid as it is.
fn explanation_text(alloc: Global, engine: &Engine, id: KeyId, place: u32) -> Result<Vec<u8>, Mem>
    requires from_one { 1 ≤ place }
    requires there { IsSome (spot_at engine.now.keys id (place - 1)) }
    ensures { IfOk result (λ text. text.items ≡ why_text engine.now id (place - 1)) }
{
    explanation_text_by::<Brand>(alloc, engine, id, place, Blank::new(1))
}

/// The same, over a counter of its own for the certifications that it reads. The letter is recounted from the cut keyring.
fn explanation_text_by<L: Ledger>(
    alloc: Global,
    engine: &Engine,
    id: KeyId,
    place: u32,
    blank: Blank,
) -> Result<Vec<u8>, Mem>
    requires from_one { 1 ≤ place }
    requires there { IsSome (spot_at engine.now.keys id (place - 1)) }
    requires own { (blank.name ≡ L.name) × (blank.parts ≡ L.parts) × (0 < L.parts) }
    ensures { IfOk result (λ text. text.items ≡ why_text engine.now id (place - 1)) }
{
    let mut steps = Steps::<L>::open(blank);
    let user = place - 1;
    let found = explain(engine, id, user, &mut steps)?;
    let letter = cut_letter(engine, &found, id, user, &mut steps)?;
    why(alloc, id, place, &found, letter)
}

/// The letter of a user ID, numbered from 0, in the keyring cut down to its explanation.
fn cut_letter<L: Ledger>(
    engine: &Engine,
    found: &Why,
    id: KeyId,
    user: u32,
    steps: &mut Steps<L>,
) -> Result<Letter, Mem>
    requires there { IsSome (spot_at engine.now.keys id user) }
    requires its_own { found.now.rows ≡ map.values (explained_rows engine.now (explanation engine.now id user)) }
    ensures { IfOk result (λ letter. letter_at (cut engine.now (explanation engine.now id user) id) id user ≡ Some letter) }
{
    let table = cut(engine, found, id, user, steps)?;
    let state = LentState::of(&table, engine.trusts(), engine.date(), engine.options());
    recount(&state, id, user, steps)
}
