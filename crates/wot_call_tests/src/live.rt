//! The engine's own edits, each counted as it is made.

ghost use Rattle.std.specs.Prelude.{◌≡◌, ◌<◌, ◌≤◌};
ghost use Rattle.wot_types.specs.Payload.{IsInRange};

use crate::engines::{A, B, TWO_KEYS, filled, is_there, keys_of, put, trusted};
use std::alloc::Global;
use std::marker::Brand;
use std::sync::ledger::{Blank, Ledger};
use std::test::Fail;
use wot_levels::{Asked, rows};
use wot_live::Engine;
use wot_table::{LentState, Table};
use wot_types::{KeyId, Keys, Letter, Options, Steps, Trust, Trusts};

/// C with a certification by B.
const THIRD_KEY: &[u8] = b"\
pub:-:255:22:00000000000000CC:1000:::-:::scSC:
fpr:::::::::00000000000000000000000000000000000000CC:
uid:-::::1000::::C <c@example.org>:
sig:!:::00000000000000BB:2000:::::13x:";

/// A, B with a certification by A whose name was not checked, and C with one that says nothing of that.
const TWO_CLASSES: &[u8] = b"\
pub:-:255:22:00000000000000AA:1000:::-:::scSC:
fpr:::::::::00000000000000000000000000000000000000AA:
uid:-::::1000::::A <a@example.org>:
pub:-:255:22:00000000000000BB:1000:::-:::scSC:
fpr:::::::::00000000000000000000000000000000000000BB:
uid:-::::1000::::B <b@example.org>:
sig:!:::00000000000000AA:2000:::::11x:
pub:-:255:22:00000000000000CC:1000:::-:::scSC:
fpr:::::::::00000000000000000000000000000000000000CC:
uid:-::::1000::::C <c@example.org>:
sig:!:::00000000000000AA:2000:::::10x:";

/// The letters of the user IDs of A, B and C, and when one may change next.
type Told = ([Option<Letter>; 3], u32);

fn told(engine: &Engine) -> Told {
    let letters = [0xaa, 0xbb, 0xcc].map(|id| engine.letter(KeyId(id), 0));
    (letters, engine.next_check())
}

/// The opening options, or those with another least level of a certification.
fn options(level: u8) -> Options
    requires { (1 ≤ level) × (level ≤ 3) }
    ensures { IsInRange result }
{
    Options {
        pgp: true,
        completes: 1,
        marginals: 3,
        depth: 5,
        level,
    }
}

/// What is told of A and B, and then with C, where B is trusted marginally.
fn told_while_put<L: Ledger>(alloc: Global, blank: Blank) -> Result<[Told; 2], Fail>
    requires own { (blank.name ≡ L.name) × (blank.parts ≡ L.parts) × (0 < L.parts) }
{
    let mut steps = Steps::<L>::open(blank);
    let engine = filled(alloc, TWO_KEYS, &mut steps)?;
    let first = told(&engine);
    let keys = keys_of(alloc, THIRD_KEY)?;
    let entries = trusted(alloc, B, Trust::Marginal)?;
    let engine = put(engine, keys, entries, &mut steps)?;
    Ok([first, told(&engine)])
}

#[test]
fn keys_and_ownertrust_are_put(rt: HostRuntime) -> Result<(), Fail> {
    let told = told_while_put::<Brand>(rt.alloc(), Blank::new(1))?;
    let first = ([Some(Letter::U), Some(Letter::F), None], 5000);
    let second = ([Some(Letter::U), Some(Letter::F), Some(Letter::M)], 5000);
    assert_eq!(rt; told, [first, second]);
    Ok(())
}

/// The engine without a key that is there.
fn without<L: Ledger>(engine: Engine, id: KeyId, steps: &mut Steps<L>) -> Result<Engine, Fail> {
    if !is_there(engine.table(), id) {
        return Err(Fail::new("no such key"));
    }
    Ok(engine.remove(id, steps)?)
}

/// What is told where B is taken out, and then where A is trusted no longer.
fn told_while_removed<L: Ledger>(alloc: Global, blank: Blank) -> Result<[Told; 2], Fail>
    requires own { (blank.name ≡ L.name) × (blank.parts ≡ L.parts) × (0 < L.parts) }
{
    let mut steps = Steps::<L>::open(blank);
    let engine = filled(alloc, TWO_KEYS, &mut steps)?;
    let engine = without(engine, KeyId(0xbb), &mut steps)?;
    let first = told(&engine);
    let entries = trusted(alloc, A, Trust::Unknown)?;
    let engine = put(engine, Keys::new(alloc), entries, &mut steps)?;
    Ok([first, told(&engine)])
}

#[test]
fn a_key_is_removed(rt: HostRuntime) -> Result<(), Fail> {
    let told = told_while_removed::<Brand>(rt.alloc(), Blank::new(1))?;
    let first = ([Some(Letter::U), None, None], 0);
    let second = ([Some(Letter::Dash), None, None], 0);
    assert_eq!(rt; told, [first, second]);
    Ok(())
}

/// What is told a second before B ends, when it does, and a second before it again.
fn told_at_dates<L: Ledger>(alloc: Global, blank: Blank) -> Result<[Told; 3], Fail>
    requires own { (blank.name ≡ L.name) × (blank.parts ≡ L.parts) × (0 < L.parts) }
{
    let mut steps = Steps::<L>::open(blank);
    let engine = filled(alloc, TWO_KEYS, &mut steps)?;
    let engine = engine.set_date(4999, &mut steps)?;
    let before = told(&engine);
    let engine = engine.set_date(5000, &mut steps)?;
    let at = told(&engine);
    let engine = engine.set_date(4999, &mut steps)?;
    Ok([before, at, told(&engine)])
}

#[test]
fn the_date_is_set_forward_and_back(rt: HostRuntime) -> Result<(), Fail> {
    let told = told_at_dates::<Brand>(rt.alloc(), Blank::new(1))?;
    let before = ([Some(Letter::U), Some(Letter::F), None], 5000);
    let at = ([Some(Letter::U), Some(Letter::E), None], 0);
    assert_eq!(rt; told, [before, at, before]);
    Ok(())
}

/// What is told of certifications of two classes, where names must have been checked and where they needn't.
fn told_at_levels<L: Ledger>(alloc: Global, blank: Blank) -> Result<[Told; 2], Fail>
    requires own { (blank.name ≡ L.name) × (blank.parts ≡ L.parts) × (0 < L.parts) }
{
    let mut steps = Steps::<L>::open(blank);
    let engine = filled(alloc, TWO_CLASSES, &mut steps)?;
    let first = told(&engine);
    let engine = engine.set_options(options(1), &mut steps)?;
    Ok([first, told(&engine)])
}

#[test]
fn the_options_are_set(rt: HostRuntime) -> Result<(), Fail> {
    let told = told_at_levels::<Brand>(rt.alloc(), Blank::new(1))?;
    let first = ([Some(Letter::U), Some(Letter::Dash), Some(Letter::F)], 0);
    let second = ([Some(Letter::U), Some(Letter::F), Some(Letter::F)], 0);
    assert_eq!(rt; told, [first, second]);
    Ok(())
}

/// What is told of an engine that is made of its keyring, its ownertrust and its rows.
fn told_of_parts<L: Ledger>(alloc: Global, blank: Blank) -> Result<Told, Fail>
    requires own { (blank.name ≡ L.name) × (blank.parts ≡ L.parts) × (0 < L.parts) }
{
    let mut steps = Steps::<L>::open(blank);
    let table = Table::new(alloc)?.put_all(keys_of(alloc, TWO_KEYS)?)?;
    let trusts = Trusts::new(alloc).set_all(trusted(alloc, A, Trust::Ultimate)?)?;
    let options = options(2);
    let state = LentState::of(&table, &trusts, 0, &options);
    let rows = rows(&state, &mut steps, &mut Asked::new(alloc))?;
    let engine = Engine::from_parts(table, trusts, 0, options, rows, &mut steps)?;
    Ok(told(&engine))
}

#[test]
fn an_engine_is_made_of_its_parts(rt: HostRuntime) -> Result<(), Fail> {
    let told = told_of_parts::<Brand>(rt.alloc(), Blank::new(1))?;
    assert_eq!(rt; told, ([Some(Letter::U), Some(Letter::F), None], 5000));
    Ok(())
}
