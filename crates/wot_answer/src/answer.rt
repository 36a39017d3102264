//! The answers to lines, to blocks at the input's end and to commands without one.

ghost use Rattle.std.specs.Prelude.{◌≡◌, false, ℕ, List, length, Some, if◌then◌else◌, IfOk};
ghost use Rattle.std.specs.Option.{option_copied};
ghost use Rattle.wot_types.specs.Commands as lines;
ghost use Rattle.wot_types.specs.Commands.{Command, begun_command, closed_command, is_quit};
ghost use Rattle.wot_types.specs.Commands.Division.{between, over};
ghost use Rattle.wot_types.specs.LineByLine.{Position};
ghost use Rattle.wot_types.specs.Listing.{Line, fault_at_end};
ghost use Rattle.wot_types.specs.Numbers.{capped};
ghost use Rattle.wot_types.specs.Outcome.{delete_outcome, entries_outcome, listing_outcome, outcome};
ghost use Rattle.wot_types.specs.OwnertrustText.{ownertrust_fault};
ghost use Rattle.wot_types.specs.Store.{Store};
ghost use Rattle.wot_listing.specs.Reading.{HasRead};
ghost use Rattle.wot_ownertrust.specs.Reading.{reading_of};
ghost use Rattle.wot_answer.specs.Answer.{Answers, Ends, IsDivision, reads_on};
ghost use Rattle.wot_answer.specs.Begun.{IsSingle};
ghost use Rattle.wot_answer.specs.Block.{IsBlockOf, IsReadFor};

use crate::begun::{Begun, Single, read_command};
use crate::block::{Block, Body};
use crate::division::Division;
use crate::edit::make_edit;
use crate::edit_reply::EditReply;
use crate::query::answer_query;
use crate::reply::{Answer, refuse, say_nothing};
use crate::words::{is_quit, line_words, without_return};
use std::alloc::Global;
use wot_lines::{entries_line, import_line, ok_line};
use wot_listing::{Blocks, Listing, ListingError};
use wot_live::Engine;
use wot_ownertrust::{OwnertrustText, TextError};
use wot_types::{Edit, Fpr, Mem, Refusal, Words};

/// The answer to a command, and the engine after it.
#[derive(Drop)]
pub struct Answered {
    pub engine: Engine,
    pub answer: Answer,
}

/// The answer to a line, and how the lines are divided after it.
#[derive(Drop)]
pub struct LineAnswered {
    pub answered: Answered,
    pub division: Division,
}

/// Answers a line without its newline; None is a line that is too long. A line that a block goes on with is read by `Division::read_on`, and not answered here. The journal ends at `end`, and has so many records.
pub fn answer_line(
    alloc: Global,
    engine: Engine,
    end: u64,
    records: u64,
    division: Division,
    line: Option<&[u8]>,
) -> Result<LineAnswered, Mem>
    requires known { (c : lines.Division) × IsDivision division c }
    requires ended { reads_on division (option_copied line) ≡ false }
    ensures answers { IfOk result (λ given. (p : Position) → engine ≡ p.progress.store.state → end ≡ p.progress.store.end
        → capped records ≡ capped (length p.progress.store.edits)
        → IsDivision division p.division → Answers given p (option_copied line.entry)) }
{
    match division {
        Division::Between => answer_command(alloc, engine, end, records, line),
        Division::Within(block) => {
            let answered = answer_body(alloc, engine, end, block.body)?;
            Ok(LineAnswered {
                answered,
                division: Division::Between,
            })
        }
        Division::Over => Ok(LineAnswered {
            answered: say_nothing(alloc, engine),
            division: Division::Over,
        }),
    }
}

/// Between two commands: the line is a command, or begins the block of one.
fn answer_command(
    alloc: Global,
    engine: Engine,
    end: u64,
    records: u64,
    line: Option<&[u8]>,
) -> Result<LineAnswered, Mem>
    ensures answers { IfOk result (λ given. (p : Position) → engine ≡ p.progress.store.state → end ≡ p.progress.store.end
        → capped records ≡ capped (length p.progress.store.edits)
        → p.division ≡ between → Answers given p (option_copied line.entry)) }
{
    match line {
        Some(line) => answer_text(alloc, engine, end, records, line),
        None => {
            let answered = refuse(alloc, engine, Refusal::LineTooLong)?;
            Ok(LineAnswered {
                answered,
                division: Division::Between,
            })
        }
    }
}

/// The same of a line that isn't too long.
fn answer_text(
    alloc: Global,
    engine: Engine,
    end: u64,
    records: u64,
    line: &[u8],
) -> Result<LineAnswered, Mem>
    ensures answers { IfOk result (λ given. (p : Position) → engine ≡ p.progress.store.state → end ≡ p.progress.store.end
        → capped records ≡ capped (length p.progress.store.edits)
        → p.division ≡ between → Answers given p (Some line.now)) }
{
    let words = line_words(alloc, without_return(line))?;
    match read_command(alloc, false, &words)? {
        Begun::Nothing => Ok(LineAnswered {
            answered: say_nothing(alloc, engine),
            division: Division::Between,
        }),
        Begun::Block(block) => Ok(LineAnswered {
            answered: say_nothing(alloc, engine),
            division: Division::Within(block),
        }),
        Begun::Single(command) => {
            let answered = answer_single(alloc, engine, end, records, command)?;
            Ok(LineAnswered {
                answered,
                division: division_after(&words),
            })
        }
    }
}

/// An accepted `quit` ends the session.
fn division_after(words: &Words) -> Division
    ensures { IsDivision result (if is_quit (Some words.now) then over else between) }
{
    if is_quit(words) {
        Division::Over
    } else {
        Division::Between
    }
}

/// Answers a command whose block is unfinished at the end of the input.
pub fn answer_end(alloc: Global, engine: Engine, end: u64, block: Block) -> Result<Answered, Mem>
    requires known { (command : Command) × IsBlockOf block command }
    ensures ends { IfOk result (λ answered. (s : Store) (command : Command) → engine ≡ s.state → end ≡ s.end
        → IsBlockOf block command → Ends answered s (outcome s command)) }
{
    let Block { to_end, body } = block;
    if to_end {
        return answer_body(alloc, engine, end, body);
    }
    match body {
        Body::Refused(refusal) => refuse(alloc, engine, refusal),
        Body::Listing(_listing) => refuse(alloc, engine, Refusal::UnendedBlock),
        Body::Ownertrust(_text) => refuse(alloc, engine, Refusal::UnendedBlock),
    }
}

/// Answers a command whose block has ended.
fn answer_body(alloc: Global, engine: Engine, end: u64, body: Body) -> Result<Answered, Mem>
    requires known { (command : Command) × IsReadFor body command }
    ensures ends { IfOk result (λ answered. (s : Store) (command : Command) → engine ≡ s.state → end ≡ s.end
        → IsReadFor body command → Ends answered s (outcome s (closed_command command))) }
{
    match body {
        Body::Refused(refusal) => refuse(alloc, engine, refusal),
        Body::Listing(listing) => import_listing(alloc, engine, end, listing),
        Body::Ownertrust(text) => set_entries(alloc, engine, end, text),
    }
}

/// Imports the keys of a listing that has ended.
fn import_listing(
    alloc: Global,
    engine: Engine,
    end: u64,
    listing: Listing,
) -> Result<Answered, Mem>
    requires known { (lines : List Line) × HasRead listing lines }
    ensures ends { IfOk result (λ answered. (s : Store) (lines : List Line) → engine ≡ s.state → end ≡ s.end
        → HasRead listing lines → Ends answered s (listing_outcome (fault_at_end lines) s lines)) }
{
    match listing.finish() {
        Ok(Blocks { keys, kept, passed }) => {
            let reply = import_line(alloc, keys.len() as u64, kept, passed)?;
            make_edit(
                alloc,
                engine,
                end,
                Edit::Import(keys),
                EditReply::Text(reply),
            )
        }
        Err(ListingError::Fault(fault)) => refuse(alloc, engine, Refusal::Listing(fault)),
        Err(ListingError::Memory) => Err(Mem::Memory),
    }
}

/// Sets the entries of an ownertrust text that has ended.
fn set_entries(
    alloc: Global,
    engine: Engine,
    end: u64,
    text: OwnertrustText,
) -> Result<Answered, Mem>
    requires known { (lines : List Line) × (text ≡ reading_of lines) }
    ensures ends { IfOk result (λ answered. (s : Store) (lines : List Line) → engine ≡ s.state → end ≡ s.end
        → text ≡ reading_of lines → Ends answered s (entries_outcome (ownertrust_fault lines) s lines)) }
{
    match text.into_entries(alloc) {
        Ok(entries) => {
            let reply = entries_line(alloc, entries.len() as u64)?;
            make_edit(
                alloc,
                engine,
                end,
                Edit::Ownertrust(entries),
                EditReply::Text(reply),
            )
        }
        Err(TextError::Fault(line, what)) => refuse(alloc, engine, Refusal::Ownertrust(line, what)),
        Err(TextError::Memory) => Err(Mem::Memory),
    }
}

/// Answers a command without a block. The journal ends at `end`, and has so many records.
pub fn answer_single(
    alloc: Global,
    engine: Engine,
    end: u64,
    records: u64,
    command: Single,
) -> Result<Answered, Mem>
    requires known { (words : List (List ℕ)) × IsSingle command words }
    ensures ends { IfOk result (λ answered. (s : Store) (words : List (List ℕ)) → engine ≡ s.state → end ≡ s.end → capped records ≡ capped (length s.edits)
        → IsSingle command words → Ends answered s (outcome s (begun_command words))) }
{
    match command {
        Single::Edit(edit) => {
            let reply = EditReply::to(alloc, &edit)?;
            make_edit(alloc, engine, end, edit, reply)
        }
        Single::Query(query) => answer_query(alloc, engine, records, query),
        Single::DeleteKey(fpr) => delete_key(alloc, engine, end, &fpr),
        Single::Refused(refusal) => refuse(alloc, engine, refusal),
    }
}

/// Takes away the key of a fingerprint.
fn delete_key(alloc: Global, engine: Engine, end: u64, fpr: &Fpr) -> Result<Answered, Mem>
    ensures ends { IfOk result (λ answered. (s : Store) → engine ≡ s.state → end ≡ s.end → Ends answered s (delete_outcome s fpr.now)) }
{
    if !engine.table().has_fpr(fpr) {
        return refuse(alloc, engine, Refusal::NoSuchKey);
    }
    let reply = ok_line(alloc)?;
    make_edit(
        alloc,
        engine,
        end,
        Edit::Delete(fpr.key_id()),
        EditReply::Text(reply),
    )
}
