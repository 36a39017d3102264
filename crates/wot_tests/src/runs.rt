//! Runs over a site in memory, and what a crash leaves of it.

use std::alloc::Global;
use std::test::Fail;
use std::thread::Threads;
use wot_session::{Status, run};
use wot_site::{MemorySite, Pick};
use wot_workers::NoGate;

/// A is trusted ultimately, and certified B.
pub const IMPORT: &[u8] = b"trust 00000000000000000000000000000000000000AA u
import
pub:-:255:22:00000000000000AA:1000:::-:::scSC:
fpr:::::::::00000000000000000000000000000000000000AA:
uid:-::::1000::::A <a@example.org>:
pub:-:255:22:00000000000000BB:1000:::-:::scSC:
fpr:::::::::00000000000000000000000000000000000000BB:
uid:-::::1000::::B <b@example.org>:
sig:!:::00000000000000AA:2000:::::13x:
.
";

/// The images that are looked at: no pending write was made, or all, or each range holds the byte of an open gate.
pub const PICKS: [Pick; 3] = [Pick::Nothing, Pick::All, Pick::Fill(0xa5)];

/// What a store is asked: by the words of a run, or by its input.
#[derive(Clone, Copy)]
pub enum Question {
    Word(&'static str),
    Input(&'static [u8]),
}

impl Question {
    fn input(self) -> &'static [u8] {
        match self {
            Question::Word(_) => b"",
            Question::Input(input) => input,
        }
    }

    fn words(self, alloc: Global) -> Result<Vec<String>, Fail> {
        let mut words = Vec::new(alloc);
        if let Question::Word(word) = self {
            words.push(String::from_str(alloc, word)?)?;
        }
        Ok(words)
    }
}

/// A site over this input and blank sides.
pub fn over(alloc: Global, input: &[u8]) -> Result<MemorySite, Fail> {
    let input = Vec::from_slice(alloc, input)?;
    Ok(MemorySite::new(alloc, input, Vec::new(alloc), Vec::new(alloc))?)
}

/// How a session over the site ends.
pub fn session<R: Threads + Sync>(rt: &R, alloc: Global, site: &mut MemorySite) -> Status {
    let words: Vec<String> = Vec::new(alloc);
    run(rt, alloc, &words, site, &NoGate)
}

/// The site after one more run, in which nothing is planned to fail.
pub fn asked_again<R: Threads + Sync>(
    rt: &R,
    alloc: Global,
    site: MemorySite,
    question: Question,
) -> Result<MemorySite, Fail> {
    let input = Vec::from_slice(alloc, question.input())?;
    let words = question.words(alloc)?;
    let mut site = site.again(input);
    match run(rt, alloc, &words, &mut site, &NoGate) {
        Status::Done => Ok(site),
        status => Err(Fail::new(format_args!("a second run ended with {status:?}"))),
    }
}

/// The site after a session that is to end well, and one more run.
pub fn asked_after_session<R: Threads + Sync>(
    rt: &R,
    alloc: Global,
    mut site: MemorySite,
    question: Question,
) -> Result<MemorySite, Fail> {
    match session(rt, alloc, &mut site) {
        Status::Done => asked_again(rt, alloc, site, question),
        status => Err(Fail::new(format_args!("the session ended with {status:?}"))),
    }
}

/// What the image that a crash leaves tells.
pub fn told_after_crash<R: Threads + Sync>(
    rt: &R,
    alloc: Global,
    site: &MemorySite,
    pick: Pick,
    question: Question,
) -> Result<Vec<u8>, Fail> {
    let (zero, one) = site.crash(pick)?;
    let site = MemorySite::new(alloc, Vec::new(alloc), zero, one)?;
    let site = asked_again(rt, alloc, site, question)?;
    Ok(Vec::from_slice(alloc, site.told())?)
}

/// How many lines were told.
pub fn lines(site: &MemorySite) -> usize {
    site.told().iter().filter(|byte| **byte == b'\n').count()
}

// Whether a text shows so many edits or more, where these are told after none of them, after the first, and so on.
fn shows_edits(text: &[u8], shown: &[&[u8]], acknowledged: usize) -> bool {
    shown.iter().skip(acknowledged).any(|after| *after == text)
}

/// Whether each image that a crash may leave shows so many edits or more, a second run on the same site too, and then each image
/// just what that run shows.
pub fn keeps_edits<R: Threads + Sync>(
    rt: &R,
    alloc: Global,
    site: MemorySite,
    question: Question,
    shown: &[&[u8]],
    acknowledged: usize,
) -> Result<bool, Fail> {
    for pick in PICKS {
        let text = told_after_crash(rt, alloc, &site, pick, question)?;
        if !shows_edits(&text, shown, acknowledged) {
            return Ok(false);
        }
    }
    let site = asked_again(rt, alloc, site, question)?;
    for pick in PICKS {
        let text = told_after_crash(rt, alloc, &site, pick, question)?;
        if text.as_slice() != site.told() {
            return Ok(false);
        }
    }
    Ok(shows_edits(site.told(), shown, acknowledged))
}
