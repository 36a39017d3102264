//! A session: what was read and not answered yet, and what the answered lines led to.

ghost use Rattle.std.specs.Prelude.{◌≡◌, ◌⊎◌, ◌↔◌, ◌<◌, ◌≤◌, ◌||◌, ℕ, true, false, List, [], ◌∷◌, length, take, min, Some, None, Ok, OnOk, IfOk, IfErr, IsErrOf, IsTrue};
ghost use Rattle.wot_types.specs.Store.{Store};
ghost use Rattle.wot_types.specs.WellFormedState.{IsWellFormedState};
ghost use Rattle.wot_types.specs.Commands.{Command, begun_command, made_by, unfinished_commands};
ghost use Rattle.wot_types.specs.LineByLine.{Position, after_line, after_lines, closing_reply, commands_in, reply_to_line};
ghost use Rattle.wot_types.specs.Session.{Progress, after_command, reply_to};
ghost use Rattle.wot_answer.specs.Begun.{IsSingle};
ghost use Rattle.wot_answer.specs.Block.{IsBlockOf};
ghost use Rattle.wot_answer.specs.Answer.{IsAsked, IsDivision, answer_text, effect_of, is_err, is_refusal, reads_on};
ghost use Rattle.wot_site.specs.Site.{Stays};
ghost use Rattle.wot_site.specs.Seen.{Honestly};
ghost use Rattle.wot_session.specs.AtEnd.{at_end, closed_at, last_commands};
ghost use Rattle.wot_session.specs.OpenLine.{more, whole_from, open_from, last_lines};
ghost use Rattle.wot_session.specs.SessionState.{AsDue, CanGive, ComesWhereDue, FromHere, IsAt, IsDue, IsOver, IsPlace, IsSomewhere, MovesTo};
ghost use Rattle.wot_session.specs.Answering.{Given, GivenPrefix, HasStopCause, Said, SaidPrefix, StopsTelling};
ghost use Rattle.wot_session.specs.Turn.{Turned, StoppedTurn};

use crate::earlier::read_earlier;
use crate::lines::split_line;
use crate::open_line::OpenLine;
use crate::perform::do_effect;
use crate::ready::make_ready;
use crate::stop::Stop;
use crate::tell::tell_ready;
use std::alloc::Global;
use std::mem;
use std::thread::Threads;
use wot_answer::{
    Answer, Answered, Block, Division, Effect, LineAnswered, Reply, Single, answer_end,
    answer_line, answer_single,
};
use wot_live::Engine;
use wot_site::{Failed, Site};
use wot_store::{Opened, Place};
use wot_types::{Mem, Query};
use wot_workers::{Gate, Workers};

/// A session over a site.
#[derive(Drop)]
pub struct Session {
    alloc: Global,
    // What the accepted edits led to. It is gone once an answer found no memory, which ends the session.
    engine: Option<Engine>,
    // Where the journal ends. It is gone once the disk failed, which ends the session.
    place: Option<Place>,
    refused: bool,
    division: Division,
    line: OpenLine,
}

impl Session {
    /// The session at its start, over the store that was opened; a run of one command with a block begins within that block.
    pub fn new(alloc: Global, opened: Opened, division: Division) -> Session
        ensures at { (p : Position) → opened.engine ≡ p.progress.store.state → IsWellFormedState p.progress.store.state → IsPlace opened.place p.progress.store
            → IsDivision division p.division → IsAt result p }
        ensures refused { result.refused ≡ false }
        ensures line { result.line ≡ Some [] }
        ensures place { result.place ≡ Some opened.place }
        ensures division { result.division ≡ division }
    {
        Session {
            alloc,
            engine: Some(opened.engine),
            place: Some(opened.place),
            refused: false,
            division,
            line: OpenLine::new(alloc),
        }
    }

    /// Whether some command was refused.
    pub fn is_refused(&self) -> bool
        ensures { result ≡ self.now.refused }
    {
        self.refused
    }

    // The same, once this is the reply to one more.
    fn is_refused_after(&self, reply: &Reply) -> bool
        ensures { result ≡ (self.now.refused || is_err reply.now) }
    {
        self.refused || reply.is_err()
    }

    /// Whether no further line is read: `quit` was answered, or the input is at its end.
    pub fn is_over(&self) -> bool
        ensures { IsTrue result ↔ IsOver self.now }
    {
        matches!(self.division, Division::Over)
    }

    // Appends bytes to the open line.
    fn hold(&mut self, bytes: &[u8]) -> Result<(), Mem>
        ensures at { (p : Position) → IsAt self.old p → IsAt self.new p }
        ensures place { self.new.place ≡ self.old.place }
        ensures refused { self.new.refused ≡ self.old.refused }
        ensures line { OnOk result (self.new.line ≡ more self.old.line bytes.now) }
    {
        self.line.extend(bytes)
    }

    // Reads the open line into the block that goes on with it, and begins the next line; says whether there is such a block.
    fn read_on(&mut self) -> Result<bool, Mem>
        ensures at { result ≡ Ok true → (p : Position) → IsAt self.old p → IsAt self.new (after_line p self.old.line) }
        ensures quiet { result ≡ Ok true → (p : Position) → IsAt self.old p → made_by p.division self.old.line ≡ [] }
        ensures place { self.new.place ≡ self.old.place }
        ensures refused { self.new.refused ≡ self.old.refused }
        ensures line { result ≡ Ok true → self.new.line ≡ Some [] }
        ensures left { result ≡ Ok false → self.new ≡ self.old }
        ensures ended { result ≡ Ok false → reads_on self.new.division self.new.line ≡ false }
    {
        if !self.division.read_on(self.line.get())? {
            return Ok(false);
        }
        self.line.clear();
        Ok(true)
    }

    // Reads the line that these bytes end into the block that goes on with it, where they are all of it; says whether there is such a block.
    fn read_whole(&mut self, bytes: &[u8]) -> Result<bool, Mem>
        ensures at { result ≡ Ok true → (p : Position) → IsAt self.old p → IsAt self.new (after_line p (more self.old.line bytes.now)) }
        ensures quiet { result ≡ Ok true → (p : Position) → IsAt self.old p → made_by p.division (more self.old.line bytes.now) ≡ [] }
        ensures place { self.new.place ≡ self.old.place }
        ensures refused { self.new.refused ≡ self.old.refused }
        ensures line { result ≡ Ok true → self.new.line ≡ Some [] }
        ensures left { result ≡ Ok false → self.new ≡ self.old }
    {
        match self.line.whole(bytes) {
            Some(line) => self.division.read_on(Some(line)),
            None => Ok(false),
        }
    }

    // Keeps the engine that an answer leaves; the answer is handed on.
    fn keep(&mut self, answered: Answered) -> Answer
        ensures answer { result ≡ answered.answer }
        ensures engine { self.new.engine ≡ Some answered.engine }
        ensures place { self.new.place ≡ self.old.place }
        ensures refused { self.new.refused ≡ self.old.refused }
        ensures division { self.new.division ≡ self.old.division }
    {
        self.engine = Some(answered.engine);
        answered.answer
    }

    // Answers the open line, which no block goes on with, and begins the next; the answer is to be given.
    fn reply(&mut self) -> Result<Answer, Mem>
        requires at { (p : Position) × IsAt self.old p }
        requires ended { reads_on self.old.division self.old.line ≡ false }
        ensures due { IfOk result (λ answer. (p : Position) → IsAt self.old p
            → IsDue self.new answer p.progress (after_line p self.old.line) (reply_to_line p self.old.line)) }
        ensures place { self.new.place ≡ self.old.place }
        ensures refused { self.new.refused ≡ self.old.refused }
        ensures line { OnOk result (self.new.line ≡ Some []) }
    {
        let Some(place) = &self.place else {
            return Err(Mem::Memory);
        };
        let Some(engine) = self.engine.take() else {
            return Err(Mem::Memory);
        };
        let division = mem::replace(&mut self.division, Division::Over);
        let LineAnswered { answered, division } = answer_line(
            self.alloc,
            engine,
            place.end,
            place.records,
            division,
            self.line.get(),
        )?;
        self.division = division;
        let answer = self.keep(answered);
        self.line.clear();
        Ok(answer)
    }

    // Gives an answer: the store is changed where it asks for that, or an earlier state is read, and only then the reply is told.
    fn give<R: Threads + Sync, S: Site, G: Gate + Sync>(
        &mut self,
        workers: &Workers<'_, R, G>,
        site: &mut S,
        answer: Answer,
    ) -> Result<(), Stop>
        requires { CanGive self.old answer (S.seen site.old) }
        ensures here { OnOk result (ComesWhereDue self.old answer (S.seen site.old) self.new (S.seen site.new)) }
        ensures line { self.new.line ≡ self.old.line }
        ensures given { OnOk result (AsDue self.old answer (S.seen site.old) (S.seen site.new) Given) }
        ensures prefix { IfErr result (λ stop. AsDue self.old answer (S.seen site.old) (S.seen site.new) (λ s t reply. GivenPrefix s t reply stop)) }
        ensures memory { IsErrOf result Stop.Memory → Honestly (S.seen site.old) (S.seen site.new) Stays }
        ensures gone { IsErrOf result Stop.DiskFault → self.new.place ≡ None }
        ensures cause { StopsTelling (S.faults site.old) (S.faults site.new) result }
    {
        match answer {
            Answer::Told(reply, effect) => self.give_reply(workers, site, reply, effect),
            Answer::Earlier(n, query) => self.give_earlier(workers, site, n, query),
        }
    }

    // Does to the store what is asked for, and only then tells the reply. Memory is taken before either.
    fn give_reply<R: Threads + Sync, S: Site, G: Gate + Sync>(
        &mut self,
        workers: &Workers<'_, R, G>,
        site: &mut S,
        reply: Reply,
        effect: Effect,
    ) -> Result<(), Stop>
        requires { CanGive self.old (Answer.Told reply effect) (S.seen site.old) }
        ensures here { OnOk result (ComesWhereDue self.old (Answer.Told reply effect) (S.seen site.old) self.new (S.seen site.new)) }
        ensures line { self.new.line ≡ self.old.line }
        ensures given { OnOk result (AsDue self.old (Answer.Told reply effect) (S.seen site.old) (S.seen site.new) Given) }
        ensures prefix { IfErr result (λ stop. AsDue self.old (Answer.Told reply effect) (S.seen site.old) (S.seen site.new) (λ s t reply. GivenPrefix s t reply stop)) }
        ensures memory { IsErrOf result Stop.Memory → Honestly (S.seen site.old) (S.seen site.new) Stays }
        ensures gone { IsErrOf result Stop.DiskFault → self.new.place ≡ None }
        ensures cause { StopsTelling (S.faults site.old) (S.faults site.new) result }
    {
        let refused = self.is_refused_after(&reply);
        let Some(engine) = &self.engine else {
            return Err(Stop::Memory);
        };
        let ready = match make_ready(workers, self.alloc, engine, reply) {
            Ok(ready) => ready,
            Err(Mem::Memory) => return Err(Stop::Memory),
        };
        let Some(place) = self.place.take() else {
            return Err(Stop::Memory);
        };
        match do_effect(self.alloc, site, engine, place, &effect) {
            Ok(after) => self.place = Some(after),
            Err(stop) => return Err(stop),
        }
        self.refused = refused;
        match tell_ready(site, ready) {
            Ok(()) => Ok(()),
            Err(Failed) => Err(Stop::TellFault),
        }
    }

    // Answers a query in the state after the first `n` edits since the base, which is read from the store, and tells the reply.
    fn give_earlier<R: Threads + Sync, S: Site, G: Gate + Sync>(
        &mut self,
        workers: &Workers<'_, R, G>,
        site: &mut S,
        n: u64,
        query: Query,
    ) -> Result<(), Stop>
        requires { CanGive self.old (Answer.Earlier n query) (S.seen site.old) }
        ensures here { OnOk result (ComesWhereDue self.old (Answer.Earlier n query) (S.seen site.old) self.new (S.seen site.new)) }
        ensures line { self.new.line ≡ self.old.line }
        ensures given { OnOk result (AsDue self.old (Answer.Earlier n query) (S.seen site.old) (S.seen site.new) Given) }
        ensures prefix { IfErr result (λ stop. AsDue self.old (Answer.Earlier n query) (S.seen site.old) (S.seen site.new) (λ s t reply. GivenPrefix s t reply stop)) }
        ensures memory { IsErrOf result Stop.Memory → Honestly (S.seen site.old) (S.seen site.new) Stays }
        ensures gone { IsErrOf result Stop.DiskFault → self.new.place ≡ None }
        ensures cause { StopsTelling (S.faults site.old) (S.faults site.new) result }
    {
        let Some(place) = self.place.take() else {
            return Err(Stop::Memory);
        };
        let (engine, reply) = match read_earlier(workers, self.alloc, site, &place, n, query) {
            Ok(read) => read,
            Err(stop) => return Err(stop),
        };
        self.place = Some(place);
        self.refused = self.is_refused_after(&reply);
        let reply = match make_ready(workers, self.alloc, &engine, reply) {
            Ok(reply) => reply,
            Err(Mem::Memory) => return Err(Stop::Memory),
        };
        match tell_ready(site, reply) {
            Ok(()) => Ok(()),
            Err(Failed) => Err(Stop::TellFault),
        }
    }

    // Reads the open line into a block, or answers it and gives the answer; then begins the next line.
    fn answer<R: Threads + Sync, S: Site, G: Gate + Sync>(
        &mut self,
        workers: &Workers<'_, R, G>,
        site: &mut S,
    ) -> Result<(), Stop>
        requires { IsSomewhere self.old (S.seen site.old) }
        ensures at { OnOk result (MovesTo self.old (S.seen site.old) self.new (S.seen site.new) (λ p. after_line p self.old.line)) }
        ensures line { OnOk result (self.new.line ≡ Some []) }
        ensures told { OnOk result (FromHere self.old (S.seen site.old) (S.seen site.new) (λ p. Said p.progress (made_by p.division self.old.line))) }
        ensures prefix { IfErr result (λ stop. FromHere self.old (S.seen site.old) (S.seen site.new) (λ p. SaidPrefix p.progress (made_by p.division self.old.line) stop)) }
        ensures cause { StopsTelling (S.faults site.old) (S.faults site.new) result }
    {
        match self.read_on() {
            Ok(true) => return Ok(()),
            Ok(false) => {}
            Err(Mem::Memory) => return Err(Stop::Memory),
        }
        let answer = match self.reply() {
            Ok(answer) => answer,
            Err(Mem::Memory) => return Err(Stop::Memory),
        };
        self.give(workers, site, answer)
    }

    // Ends the open line with these bytes, and answers it. A line of a block that lies whole in the bytes is read where it stands, and not copied first.
    fn end_line<R: Threads + Sync, S: Site, G: Gate + Sync>(
        &mut self,
        workers: &Workers<'_, R, G>,
        site: &mut S,
        bytes: &[u8],
    ) -> Result<(), Stop>
        requires { IsSomewhere self.old (S.seen site.old) }
        ensures at { OnOk result (MovesTo self.old (S.seen site.old) self.new (S.seen site.new) (λ p. after_line p (more self.old.line bytes.now))) }
        ensures line { OnOk result (self.new.line ≡ Some []) }
        ensures told { OnOk result (FromHere self.old (S.seen site.old) (S.seen site.new) (λ p. Said p.progress (made_by p.division (more self.old.line bytes.now)))) }
        ensures prefix { IfErr result (λ stop. FromHere self.old (S.seen site.old) (S.seen site.new) (λ p. SaidPrefix p.progress (made_by p.division (more self.old.line bytes.now)) stop)) }
        ensures cause { StopsTelling (S.faults site.old) (S.faults site.new) result }
    {
        match self.read_whole(bytes) {
            Ok(true) => return Ok(()),
            Ok(false) => {}
            Err(Mem::Memory) => return Err(Stop::Memory),
        }
        if let Err(Mem::Memory) = self.hold(bytes) {
            return Err(Stop::Memory);
        }
        self.answer(workers, site)
    }

    /// Answers each line that these bytes end, one after the other, up to `quit`; what they leave open is kept.
    pub fn answer_bytes<R: Threads + Sync, S: Site, G: Gate + Sync>(
        &mut self,
        workers: &Workers<'_, R, G>,
        site: &mut S,
        bytes: &[u8],
    ) -> Result<(), Stop>
        requires { IsSomewhere self.old (S.seen site.old) }
        ensures at { OnOk result (MovesTo self.old (S.seen site.old) self.new (S.seen site.new) (λ p. after_lines p (whole_from self.old.line bytes.now))) }
        ensures line { OnOk result (IsOver self.new ⊎ (self.new.line ≡ open_from self.old.line bytes.now)) }
        ensures told { OnOk result (FromHere self.old (S.seen site.old) (S.seen site.new) (λ p. Said p.progress (commands_in p (whole_from self.old.line bytes.now)))) }
        ensures prefix { IfErr result (λ stop. FromHere self.old (S.seen site.old) (S.seen site.new) (λ p. SaidPrefix p.progress (commands_in p (whole_from self.old.line bytes.now)) stop)) }
        ensures cause { StopsTelling (S.faults site.old) (S.faults site.new) result }
    {
        let mut rest = bytes;
        while let Some((line, after)) = split_line(rest) {
            if let Err(stop) = self.end_line(workers, site, line) {
                return Err(stop);
            }
            if self.is_over() {
                return Ok(());
            }
            rest = after;
        }
        match self.hold(rest) {
            Ok(()) => Ok(()),
            Err(Mem::Memory) => Err(Stop::Memory),
        }
    }

    // Answers the last line at the end of the input; an empty rest is no line.
    fn answer_last<R: Threads + Sync, S: Site, G: Gate + Sync>(
        &mut self,
        workers: &Workers<'_, R, G>,
        site: &mut S,
    ) -> Result<(), Stop>
        requires { IsSomewhere self.old (S.seen site.old) }
        ensures at { OnOk result (MovesTo self.old (S.seen site.old) self.new (S.seen site.new) (λ p. after_lines p (last_lines self.old.line))) }
        ensures told { OnOk result (FromHere self.old (S.seen site.old) (S.seen site.new) (λ p. Said p.progress (commands_in p (last_lines self.old.line)))) }
        ensures prefix { IfErr result (λ stop. FromHere self.old (S.seen site.old) (S.seen site.new) (λ p. SaidPrefix p.progress (commands_in p (last_lines self.old.line)) stop)) }
        ensures cause { StopsTelling (S.faults site.old) (S.faults site.new) result }
    {
        if self.line.is_empty() {
            return Ok(());
        }
        self.answer(workers, site)
    }

    // Answers the command whose block is unfinished, if there is one; the answer is to be given.
    fn close(&mut self) -> Result<Answer, Mem>
        requires { (p : Position) × IsAt self.old p }
        ensures due { IfOk result (λ answer. (p : Position) → IsAt self.old p
            → IsDue self.new answer p.progress (closed_at p) (closing_reply p)) }
        ensures place { self.new.place ≡ self.old.place }
        ensures refused { self.new.refused ≡ self.old.refused }
    {
        match mem::replace(&mut self.division, Division::Over) {
            Division::Within(block) => self.end_block(block),
            Division::Between | Division::Over => Ok(self.nothing()),
        }
    }

    // Answers the command of a block that is unfinished; the answer is to be given.
    fn end_block(&mut self, block: Block) -> Result<Answer, Mem>
        requires { (command : Command) × IsBlockOf block command }
        ensures due { IfOk result (λ answer. (p : Position) (command : Command) → IsAt self.old p → IsBlockOf block command
            → IsDue self.new answer p.progress (record p { progress = after_command p.progress command }) (reply_to p.progress command)) }
        ensures place { self.new.place ≡ self.old.place }
        ensures refused { self.new.refused ≡ self.old.refused }
    {
        let Some(place) = &self.place else {
            return Err(Mem::Memory);
        };
        let Some(engine) = self.engine.take() else {
            return Err(Mem::Memory);
        };
        let answered = answer_end(self.alloc, engine, place.end, block)?;
        Ok(self.keep(answered))
    }

    // No reply.
    fn nothing(&self) -> Answer
        ensures text { (s : Store) → answer_text result s ≡ [] }
        ensures refused { (s : Store) → is_refusal result s ≡ false }
        ensures asked { (s : Store) → IsAsked result s }
        ensures effect { effect_of result ≡ Effect.Nothing }
    {
        Answer::Told(Reply::Text(Vec::new(self.alloc)), Effect::Nothing)
    }

    // The same, and gives it.
    fn answer_unfinished<R: Threads + Sync, S: Site, G: Gate + Sync>(
        &mut self,
        workers: &Workers<'_, R, G>,
        site: &mut S,
    ) -> Result<(), Stop>
        requires { IsSomewhere self.old (S.seen site.old) }
        ensures at { OnOk result (MovesTo self.old (S.seen site.old) self.new (S.seen site.new) closed_at) }
        ensures told { OnOk result (FromHere self.old (S.seen site.old) (S.seen site.new) (λ p. Said p.progress (unfinished_commands p.division))) }
        ensures prefix { IfErr result (λ stop. FromHere self.old (S.seen site.old) (S.seen site.new) (λ p. SaidPrefix p.progress (unfinished_commands p.division) stop)) }
        ensures cause { StopsTelling (S.faults site.old) (S.faults site.new) result }
    {
        let answer = match self.close() {
            Ok(answer) => answer,
            Err(Mem::Memory) => return Err(Stop::Memory),
        };
        self.give(workers, site, answer)
    }

    /// Answers what is left at the end of the input: the last line, and a command whose block is unfinished.
    pub fn answer_rest<R: Threads + Sync, S: Site, G: Gate + Sync>(
        &mut self,
        workers: &Workers<'_, R, G>,
        site: &mut S,
    ) -> Result<(), Stop>
        requires { IsSomewhere self.old (S.seen site.old) }
        ensures at { OnOk result (MovesTo self.old (S.seen site.old) self.new (S.seen site.new) (λ p. at_end p self.old.line)) }
        ensures told { OnOk result (FromHere self.old (S.seen site.old) (S.seen site.new) (λ p. Said p.progress (last_commands p self.old.line))) }
        ensures prefix { IfErr result (λ stop. FromHere self.old (S.seen site.old) (S.seen site.new) (λ p. SaidPrefix p.progress (last_commands p self.old.line) stop)) }
        ensures cause { StopsTelling (S.faults site.old) (S.faults site.new) result }
    {
        if let Err(stop) = self.answer_last(workers, site) {
            return Err(stop);
        }
        self.answer_unfinished(workers, site)
    }

    // Answers one command that takes no block; the answer is to be given.
    fn reply_to_command(&mut self, command: Single) -> Result<Answer, Mem>
        requires known { (words : List (List ℕ)) × IsSingle command words }
        ensures due { IfOk result (λ answer. (p : Position) (words : List (List ℕ)) → IsAt self.old p → IsSingle command words
            → IsDue self.new answer p.progress (record p { progress = after_command p.progress (begun_command words) }) (reply_to p.progress (begun_command words))) }
        ensures place { self.new.place ≡ self.old.place }
        ensures refused { self.new.refused ≡ self.old.refused }
    {
        let Some(place) = &self.place else {
            return Err(Mem::Memory);
        };
        let Some(engine) = self.engine.take() else {
            return Err(Mem::Memory);
        };
        let answered = answer_single(self.alloc, engine, place.end, place.records, command)?;
        Ok(self.keep(answered))
    }

    /// The same, and gives it.
    pub fn perform_command<R: Threads + Sync, S: Site, G: Gate + Sync>(
        &mut self,
        workers: &Workers<'_, R, G>,
        site: &mut S,
        command: Single,
    ) -> Result<(), Stop>
        requires known { (words : List (List ℕ)) × IsSingle command words }
        requires somewhere { IsSomewhere self.old (S.seen site.old) }
        ensures at { OnOk result ((words : List (List ℕ)) → IsSingle command words
            → MovesTo self.old (S.seen site.old) self.new (S.seen site.new) (λ p. record p { progress = after_command p.progress (begun_command words) })) }
        ensures told { OnOk result ((words : List (List ℕ)) → IsSingle command words
            → FromHere self.old (S.seen site.old) (S.seen site.new) (λ p. Said p.progress (begun_command words ∷ []))) }
        ensures prefix { IfErr result (λ stop. (words : List (List ℕ)) → IsSingle command words
            → FromHere self.old (S.seen site.old) (S.seen site.new) (λ p. SaidPrefix p.progress (begun_command words ∷ []) stop)) }
        ensures cause { StopsTelling (S.faults site.old) (S.faults site.new) result }
    {
        let answer = match self.reply_to_command(command) {
            Ok(answer) => answer,
            Err(Mem::Memory) => return Err(Stop::Memory),
        };
        self.give(workers, site, answer)
    }

    /// Takes once and answers the lines that the bytes end, of which only so many as there is room for are read.
    /// It answers how many were read: 0 at the end of the input.
    pub fn turn<R: Threads + Sync, S: Site, G: Gate + Sync>(
        &mut self,
        workers: &Workers<'_, R, G>,
        site: &mut S,
        buf: &mut [u8],
        room: u64,
    ) -> Result<usize, Stop>
        requires somewhere { IsSomewhere self.old (S.seen site.old) }
        requires some { 0 < length buf.old }
        ensures fits { IfOk result (λ n. n ≤ length buf.new) }
        ensures room { IfOk result (λ n. n ≤ room) }
        ensures at { IfOk result (λ n. MovesTo self.old (S.seen site.old) self.new (S.seen site.new) (λ p. after_lines p (whole_from self.old.line (take n buf.new)))) }
        ensures line { IfOk result (λ n. IsOver self.new ⊎ (self.new.line ≡ open_from self.old.line (take n buf.new))) }
        ensures turned { IfOk result (λ n. FromHere self.old (S.seen site.old) (S.seen site.new) (λ p. Turned p self.old.line (take n buf.new))) }
        ensures stopped { IfErr result (λ stop. FromHere self.old (S.seen site.old) (S.seen site.new) (λ p. StoppedTurn p self.old.line room stop)) }
        ensures cause { HasStopCause (S.faults site.old) (S.faults site.new) result }
    {
        let taken = match site.take(buf) {
            Ok(n) => n,
            Err(Failed) => return Err(Stop::ReadFault),
        };
        let read = first_of(taken, room);
        match self.answer_bytes(workers, site, &buf[..read]) {
            Ok(()) => {}
            Err(stop) => return Err(stop),
        }
        if self.is_over() {
            return Ok(read);
        }
        if read < taken {
            return Err(Stop::TooLong);
        }
        Ok(read)
    }
}

// How many of so many bytes there is room for.
fn first_of(taken: usize, room: u64) -> usize
    ensures { result ≡ min taken room }
{
    if room < taken as u64 {
        room as usize
    } else {
        taken
    }
}
