//! The keyring, or one key of it, as a listing: with the validity of each key and user ID, and with or without certifications.

ghost use Rattle.std.specs.Prelude.{◌≡◌, ◌<◌, ◌≤◌, All, IfOk, IfSome, IsSome, IsTrue, None, OnOk, Some, length, min};
ghost use Rattle.std.specs.List.{flat_map};
ghost use Rattle.std.specs.FinMap as map;
ghost use Rattle.wot_types.specs.Arrangement.{spot_of};
ghost use Rattle.wot_types.specs.Keyring.{cert_total, key_certs};
ghost use Rattle.wot_types.specs.Levels.{rows_of};
ghost use Rattle.wot_types.specs.Limits.{most_certs};
ghost use Rattle.wot_types.specs.Listing.{Spells};
ghost use Rattle.wot_types.specs.Ownertrust.{ownertrust_of};
ghost use Rattle.wot_types.specs.Printing.{cert_line, key_lines, list_text, listed_keyblocks, user_lines};
ghost use Rattle.wot_types.specs.Selection.{Spot, spots_from};
ghost use Rattle.wot_types.specs.Numbers.{capped};
ghost use Rattle.wot_print_laws.specs.Fits.{FitsCert, FitsKey, FitsState, FitsUser};
ghost use Rattle.wot_live.specs.KeyLetters.{AreOfKey};
ghost use Rattle.wot_print_laws.specs.ListingLines.{listing_lines};

use crate::fits::{cert_fits, key_fits, state_fits, user_fits};
use crate::ownertrust_walk::OwnertrustWalk;
use std::alloc::Global;
use std::marker::{Brand, Model};
use std::sync::ledger::{Blank, Ledger};
use wot_fields::{Printed, Sink};
use wot_levels::user_in;
use wot_lines::{push_cert, push_fpr, push_pub, push_tru, push_user};
use wot_live::{Engine, Letters};
use wot_print_laws::printed_reads_back;
use wot_table::{BlockOrder, Keyblock};
use wot_types::{KeyId, MOST_CERTS, Mem, Ownertrust, Steps};

/// How keys are printed: with certifications or without, the room to bring these into the block's order, and how many were read for it.
#[derive(Drop)]
struct Sheet<'a, L: Ledger> {
    sigs: bool,
    order: BlockOrder<'a>,
    steps: Steps<L>,
}

impl<'a, L: Ledger> Sheet<'a, L> {
    /// With none read yet.
    fn of(sigs: bool, order: BlockOrder<'a>, blank: Blank) -> Sheet<'a, L>
        requires own { (blank.name ≡ L.name) × (blank.parts ≡ L.parts) × (0 < L.parts) }
        ensures sigs { result.sigs ≡ sigs }
        ensures most { result.order.most ≡ order.entry.most }
        ensures steps { result.steps ≡ 0 }
    {
        Sheet {
            sigs,
            order,
            steps: Steps::<L>::open(blank),
        }
    }
}

/// All keys in rising order of key ID, as a listing for which all memory was taken: to print it takes no more.
#[derive(Drop)]
pub struct Printout<'a> {
    engine: &'a Engine,
    sigs: bool,
    trusts: OwnertrustWalk<'a>,
    order: BlockOrder<'a>,
}

impl<'a> Model for Printout<'a> {
    ghost use Rattle.std.specs.Prelude.{List, ℕ, None, IsTrue, ◌≡◌, ◌≤◌, min};
    ghost use Rattle.wot_types.specs.Keyring.{cert_total};
    ghost use Rattle.wot_types.specs.Limits.{most_certs};
    ghost use Rattle.wot_types.specs.Printing.{list_text};

    ghost Value = { List ℕ };

    ghost view = { λ p. list_text p.engine.now None p.sigs };

    ghost invariant = { λ p. (p.trusts.trusts ≡ p.engine.now.trusts) × (p.trusts.from ≡ 0) × (IsTrue p.sigs → min (cert_total p.engine.now.keys) most_certs ≤ p.order.most) };
}

impl<'a> Printout<'a> {
    /// Of all keys of the engine, with or without certifications.
    pub fn of(alloc: Global, engine: &'a Engine, sigs: bool) -> Result<Printout<'a>, Mem>
        ensures { IfOk result (λ printout. printout ≡ list_text engine.now None sigs) }
    {
        Ok(Printout {
            engine,
            sigs,
            trusts: OwnertrustWalk::of(alloc, engine.trusts())?,
            order: block_order(alloc, engine, sigs)?,
        })
    }

    /// Prints it.
    pub fn print<W: Sink>(self, text: &mut W) -> Result<(), W::Error>
        ensures same { W.name text.new ≡ W.name text.old }
        ensures adds { OnOk result (W.adds text.old self.entry text.new) }
    {
        let Printout {
            engine,
            sigs,
            mut trusts,
            order,
        } = self;
        push_all::<W, Brand>(text, engine, sigs, &mut trusts, order, Blank::new(1))
    }
}

/// All keys in rising order of key ID, or the key that `only` names; a key that isn't there has no lines.
/// With `sigs` each user ID is followed by its certifications in the block's order.
pub fn list(alloc: Global, engine: &Engine, only: Option<KeyId>, sigs: bool) -> Result<Vec<u8>, Mem>
    ensures text { IfOk result (λ text. text.items ≡ list_text engine.now only sigs) }
    ensures reads_back { only ≡ None → IsTrue sigs
        → IfOk result (λ text. Spells (listing_lines text.items) (map.values engine.now.keys) (capped (cert_total engine.now.keys)) 0) }
{
    match only {
        Some(id) => list_one(alloc, engine, id, sigs),
        None => list_all(alloc, engine, sigs),
    }
}

/// All keys.
fn list_all(alloc: Global, engine: &Engine, sigs: bool) -> Result<Vec<u8>, Mem>
    ensures text { IfOk result (λ text. text.items ≡ list_text engine.now None sigs) }
    ensures reads_back { IsTrue sigs
        → IfOk result (λ text. Spells (listing_lines text.items) (map.values engine.now.keys) (capped (cert_total engine.now.keys)) 0) }
{
    // For the clause of reading back: the law, and that each key of the table is well formed.
    printed_reads_back();
    let _totals = engine.table().totals();
    let mut text = Printed::new(alloc);
    let order = block_order(alloc, engine, sigs)?;
    let mut trusts = OwnertrustWalk::of(alloc, engine.trusts())?;
    push_all::<Printed, Brand>(&mut text, engine, sigs, &mut trusts, order, Blank::new(1))?;
    text.into_vec()
}

/// The key of a key ID, if it is there.
fn list_one(alloc: Global, engine: &Engine, id: KeyId, sigs: bool) -> Result<Vec<u8>, Mem>
    ensures { IfOk result (λ text. text.items ≡ list_text engine.now (Some id) sigs) }
{
    let mut text = Printed::new(alloc);
    let order = block_order(alloc, engine, sigs)?;
    push_one::<Printed, Brand>(&mut text, engine, id, sigs, order, Blank::new(1))?;
    text.into_vec()
}

/// Room for the certifications on each user ID, where they are printed.
fn block_order<'a>(alloc: Global, engine: &'a Engine, sigs: bool) -> Result<BlockOrder<'a>, Mem>
    ensures { IfOk result (λ order. IsTrue sigs → min (cert_total engine.now.keys) most_certs ≤ order.most) }
{
    let most = if sigs {
        engine.table().totals().certs.min(u64::from(MOST_CERTS))
    } else {
        0
    };
    BlockOrder::with_room(alloc, most as usize)
}

/// The listing of all keys, over a counter of its own for the certifications that it reads.
fn push_all<'a, W: Sink, L: Ledger>(
    text: &mut W,
    engine: &'a Engine,
    sigs: bool,
    trusts: &mut OwnertrustWalk<'a>,
    order: BlockOrder<'a>,
    blank: Blank,
) -> Result<(), W::Error>
    requires own { (blank.name ≡ L.name) × (blank.parts ≡ L.parts) × (0 < L.parts) }
    requires trusts { (trusts.old.trusts ≡ engine.now.trusts) × (trusts.old.from ≡ 0) }
    requires room { IsTrue sigs → min (cert_total engine.now.keys) most_certs ≤ order.most }
    ensures same { W.name text.new ≡ W.name text.old }
    ensures text { OnOk result (W.adds text.old (list_text engine.now None sigs) text.new) }
    ensures fits { IsTrue sigs → OnOk result (FitsState engine.now) }
{
    let mut sheet = Sheet::<L>::of(sigs, order, blank);
    push_tru(text, engine.options(), engine.date(), engine.next_check())?;
    push_keys(text, engine, trusts, &mut sheet)?;
    state_fits(engine);
    Ok(())
}

/// The listing of one key, in the same way.
fn push_one<'a, W: Sink, L: Ledger>(
    text: &mut W,
    engine: &'a Engine,
    id: KeyId,
    sigs: bool,
    order: BlockOrder<'a>,
    blank: Blank,
) -> Result<(), W::Error>
    requires own { (blank.name ≡ L.name) × (blank.parts ≡ L.parts) × (0 < L.parts) }
    requires room { IsTrue sigs → min (cert_total engine.now.keys) most_certs ≤ order.most }
    ensures same { W.name text.new ≡ W.name text.old }
    ensures adds { OnOk result (W.adds text.old (list_text engine.now (Some id) sigs) text.new) }
{
    let mut sheet = Sheet::<L>::of(sigs, order, blank);
    push_tru(text, engine.options(), engine.date(), engine.next_check())?;
    push_key(text, engine, id, &mut sheet)
}

/// The lines of all keys.
fn push_keys<'a, W: Sink, L: Ledger>(
    text: &mut W,
    engine: &'a Engine,
    trusts: &mut OwnertrustWalk<'a>,
    sheet: &mut Sheet<'a, L>,
) -> Result<(), W::Error>
    requires trusts { (trusts.old.trusts ≡ engine.now.trusts) × (trusts.old.from ≡ 0) }
    requires room { IsTrue sheet.old.sigs → min (cert_total engine.now.keys) most_certs ≤ sheet.old.order.most }
    ensures same { W.name text.new ≡ W.name text.old }
    ensures lines { OnOk result (W.adds text.old (flat_map (key_lines engine.now (rows_of engine.now) sheet.old.sigs) (listed_keyblocks engine.now None)) text.new) }
    ensures fits { IsTrue sheet.old.sigs → OnOk result (All (λ e. FitsKey e.1) (map.entries engine.now.keys)) }
{
    let mut walk = engine.letter_walk();
    for keyblock in engine.table().walk() {
        let kept = trusts.ownertrust_of(keyblock.key().fpr);
        let letters = walk.letters(keyblock.id());
        push_keyblock(text, &letters, &keyblock, kept, sheet)?;
    }
    Ok(())
}

/// The lines of the key of a key ID, if it is there.
fn push_key<'a, W: Sink, L: Ledger>(
    text: &mut W,
    engine: &'a Engine,
    id: KeyId,
    sheet: &mut Sheet<'a, L>,
) -> Result<(), W::Error>
    requires room { IsTrue sheet.old.sigs → min (cert_total engine.now.keys) most_certs ≤ sheet.old.order.most }
    ensures same { W.name text.new ≡ W.name text.old }
    ensures adds { OnOk result (W.adds text.old (flat_map (key_lines engine.now (rows_of engine.now) sheet.old.sigs) (listed_keyblocks engine.now (Some id))) text.new) }
{
    // For the room: each key of the table is well formed.
    let _totals = engine.table().totals();
    match engine.table().keyblock(id) {
        Some(keyblock) => {
            let kept = engine.trusts().ownertrust_of(keyblock.key().fpr);
            let letters = engine.letters(id);
            push_keyblock(text, &letters, &keyblock, kept, sheet)
        }
        None => Ok(()),
    }
}

/// The lines of a key of the engine's table, of which this is kept.
fn push_keyblock<'a, W: Sink, L: Ledger>(
    text: &mut W,
    letters: &Letters<'_>,
    keyblock: &Keyblock<'a>,
    kept: Ownertrust,
    sheet: &mut Sheet<'a, L>,
) -> Result<(), W::Error>
    requires told { AreOfKey letters.now keyblock.now }
    requires kept { kept ≡ ownertrust_of letters.now.state.trusts keyblock.now.1.fpr }
    requires room { IsTrue sheet.old.sigs → key_certs keyblock.now.1 ≤ sheet.old.order.most }
    ensures same { W.name text.new ≡ W.name text.old }
    ensures lines { OnOk result (W.adds text.old (key_lines letters.now.state (rows_of letters.now.state) sheet.old.sigs keyblock.now) text.new) }
    ensures fits { IsTrue sheet.old.sigs → OnOk result (FitsKey keyblock.now.1) }
    ensures sigs { sheet.new.sigs ≡ sheet.old.sigs }
    ensures most { sheet.new.order.most ≡ sheet.old.order.most }
{
    let id = keyblock.id();
    let head = keyblock.key();
    push_pub(text, letters.key_letter(keyblock), kept, id, &head)?;
    push_fpr(text, head.fpr)?;
    push_users(text, letters, keyblock, head.users, sheet)?;
    key_fits(&head);
    Ok(())
}

/// The lines of a key's user IDs, of which there are so many.
fn push_users<'a, W: Sink, L: Ledger>(
    text: &mut W,
    letters: &Letters<'_>,
    keyblock: &Keyblock<'a>,
    users: u32,
    sheet: &mut Sheet<'a, L>,
) -> Result<(), W::Error>
    requires told { AreOfKey letters.now keyblock.now }
    requires all { users ≡ length keyblock.now.1.users }
    requires room { IsTrue sheet.old.sigs → key_certs keyblock.now.1 ≤ sheet.old.order.most }
    ensures same { W.name text.new ≡ W.name text.old }
    ensures lines { OnOk result (W.adds text.old (flat_map (user_lines letters.now.state (rows_of letters.now.state) sheet.old.sigs keyblock.now.0 keyblock.now.1) (spots_from 0 keyblock.now.1.users)) text.new) }
    ensures fits { IsTrue sheet.old.sigs → OnOk result (All FitsUser keyblock.now.1.users) }
    ensures sigs { sheet.new.sigs ≡ sheet.old.sigs }
    ensures most { sheet.new.order.most ≡ sheet.old.order.most }
{
    for user in 0..users {
        push_user_at(text, letters, keyblock, user, sheet)?;
    }
    Ok(())
}

/// The lines of a user ID, numbered from 0.
fn push_user_at<'a, W: Sink, L: Ledger>(
    text: &mut W,
    letters: &Letters<'_>,
    keyblock: &Keyblock<'a>,
    user: u32,
    sheet: &mut Sheet<'a, L>,
) -> Result<(), W::Error>
    requires told { AreOfKey letters.now keyblock.now }
    requires there { IsSome (spot_of keyblock.now.1 user) }
    requires room { IsTrue sheet.old.sigs → key_certs keyblock.now.1 ≤ sheet.old.order.most }
    ensures same { W.name text.new ≡ W.name text.old }
    ensures lines { (spot : Spot) → spot_of keyblock.now.1 user ≡ Some spot
        → OnOk result (W.adds text.old (user_lines letters.now.state (rows_of letters.now.state) sheet.old.sigs keyblock.now.0 keyblock.now.1 spot) text.new) }
    ensures fits { (spot : Spot) → spot_of keyblock.now.1 user ≡ Some spot
        → IsTrue sheet.old.sigs → OnOk result (FitsUser spot.user) }
    ensures sigs { sheet.new.sigs ≡ sheet.old.sigs }
    ensures most { sheet.new.order.most ≡ sheet.old.order.most }
{
    let head = user_in(keyblock, user).unwrap();
    let letter = letters.letter(keyblock, user).unwrap();
    push_user(text, letter, &head)?;
    if sheet.sigs {
        push_certs(text, keyblock, user, sheet)?;
    }
    user_fits(&head);
    Ok(())
}

/// The lines of the certifications on a user ID, in the block's order.
fn push_certs<'a, W: Sink, L: Ledger>(
    text: &mut W,
    keyblock: &Keyblock<'a>,
    user: u32,
    sheet: &mut Sheet<'a, L>,
) -> Result<(), W::Error>
    requires there { IsSome (spot_of keyblock.now.1 user) }
    requires room { IfSome (spot_of keyblock.now.1 user) (λ spot. length spot.certs ≤ sheet.old.order.most) }
    ensures same { W.name text.new ≡ W.name text.old }
    ensures lines { (spot : Spot) → spot_of keyblock.now.1 user ≡ Some spot
        → OnOk result (W.adds text.old (flat_map (λ placed. cert_line placed.cert) spot.certs) text.new) }
    ensures fits { (spot : Spot) → spot_of keyblock.now.1 user ≡ Some spot
        → OnOk result (All (λ placed. FitsCert placed.cert) spot.certs) }
    ensures sigs { sheet.new.sigs ≡ sheet.old.sigs }
    ensures most { sheet.new.order.most ≡ sheet.old.order.most }
{
    keyblock.arrange(user, &mut sheet.order, &mut sheet.steps);
    for placed in sheet.order.certs.iter() {
        cert_fits(placed);
        push_cert(text, placed)?;
    }
    Ok(())
}
