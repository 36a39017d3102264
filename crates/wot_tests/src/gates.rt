//! Runs over several workers, with gates that see whether they are there at the same time, and which of them are.

ghost use Rattle.std.specs.Prelude.{◌<◌};

use crate::runs::IMPORT;
use std::alloc::Global;
use std::sync::atomic::{AtomicBool, AtomicU64, Ordering};
use std::test::Fail;
use wot_session::{Status, run};
use wot_site::{MemorySite, Pick};
use wot_workers::{Gate, NoGate};

/// How often a worker looks for the other.
const TURNS: u32 = 100_000_000;

/// Of two pieces, which were entered, and which saw the other at its first entry.
#[derive(Drop)]
struct Meeting {
    entered: [AtomicBool; 2],
    met: [AtomicBool; 2],
}

impl Meeting {
    fn new() -> Meeting {
        Meeting {
            entered: [AtomicBool::new(false), AtomicBool::new(false)],
            met: [AtomicBool::new(false), AtomicBool::new(false)],
        }
    }

    /// Whether a piece that enters for the first time finds the other there, or is found waiting by it.
    fn meets(&self, mine: usize, other: usize) -> bool
        requires { (mine < 2) × (other < 2) }
    {
        for _turn in 0..TURNS {
            if self.entered[other].load(Ordering::SeqCst) {
                return true;
            }
        }
        false
    }

    fn both_met(&self) -> bool {
        self.met[0].load(Ordering::SeqCst) && self.met[1].load(Ordering::SeqCst)
    }
}

impl Gate for Meeting {
    fn enter(&self, piece: u32) {
        let (mine, other) = if piece == 0 { (0, 1) } else { (1, 0) };
        if self.entered[mine].swap(true, Ordering::SeqCst) {
            return;
        }
        if self.meets(mine, other) {
            self.met[mine].store(true, Ordering::SeqCst);
        }
    }
}

/// Which pieces were entered, each as a bit of its number, and whether one was entered twice.
#[derive(Drop)]
struct Pieces {
    entered: AtomicU64,
    again: AtomicBool,
}

impl Pieces {
    fn new() -> Pieces {
        Pieces {
            entered: AtomicU64::new(0),
            again: AtomicBool::new(false),
        }
    }

    /// Whether the first five were entered once each, and no other.
    fn are_five(&self) -> bool {
        self.entered.load(Ordering::SeqCst) == 0b11111 && !self.again.load(Ordering::SeqCst)
    }
}

impl Gate for Pieces {
    fn enter(&self, piece: u32) {
        let bit = 1u64 << (piece % 64);
        if self.entered.fetch_or(bit, Ordering::SeqCst) & bit != 0 {
            self.again.store(true, Ordering::SeqCst);
        }
    }
}

// The words of a run over several workers, without a command or with one.
fn workers(alloc: Global, count: &str, command: Option<&str>) -> Result<Vec<String>, Fail> {
    let mut words = Vec::new(alloc);
    words.push(String::from_str(alloc, "--workers")?)?;
    words.push(String::from_str(alloc, count)?)?;
    if let Some(command) = command {
        words.push(String::from_str(alloc, command)?)?;
    }
    Ok(words)
}

// The import and what follows it, as an input.
fn input_with(alloc: Global, command: &[u8]) -> Result<Vec<u8>, Fail> {
    let mut input = Vec::from_slice(alloc, IMPORT)?;
    input.extend_from_slice(command)?;
    Ok(input)
}

#[test]
fn stored_rows_are_checked_beside_each_other(rt: HostRuntime) -> Result<(), Fail> {
    let alloc = rt.alloc();
    let input = input_with(alloc, b"compact\n")?;
    let mut first = MemorySite::new(alloc, input, Vec::new(alloc), Vec::new(alloc))?;
    let no_words: Vec<String> = Vec::new(alloc);
    assert_eq!(rt;
        run(&rt, alloc, &no_words, &mut first, &NoGate),
        Status::Done
    );
    let (zero, one) = first.crash(Pick::All)?;
    let mut again = MemorySite::new(alloc, Vec::new(alloc), zero, one)?;
    let gate = Meeting::new();
    let words = workers(alloc, "2", Some("export"))?;
    assert_eq!(rt; run(&rt, alloc, &words, &mut again, &gate), Status::Done);
    assert!(rt; gate.both_met());
    Ok(())
}

#[test]
fn rows_are_counted_beside_each_other(rt: HostRuntime) -> Result<(), Fail> {
    let alloc = rt.alloc();
    let input = input_with(alloc, b"check\n")?;
    let mut site = MemorySite::new(alloc, input, Vec::new(alloc), Vec::new(alloc))?;
    let gate = Meeting::new();
    let words = workers(alloc, "2", None)?;
    assert_eq!(rt; run(&rt, alloc, &words, &mut site, &gate), Status::Done);
    assert!(rt; gate.both_met());
    Ok(())
}

/// Nine keys, of which five workers get two, two, two, two and one; their rows are of one level, which is counted at once.
const NINE_KEYS: &[u8] = b"options pgp 1 3 1 2\nsample 7 9\n";

#[test]
fn each_piece_of_the_stored_rows_is_entered_once(rt: HostRuntime) -> Result<(), Fail> {
    let alloc = rt.alloc();
    let mut input = Vec::from_slice(alloc, NINE_KEYS)?;
    input.extend_from_slice(b"compact\n")?;
    let mut first = MemorySite::new(alloc, input, Vec::new(alloc), Vec::new(alloc))?;
    let no_words: Vec<String> = Vec::new(alloc);
    assert_eq!(rt;
        run(&rt, alloc, &no_words, &mut first, &NoGate),
        Status::Done
    );
    let (zero, one) = first.crash(Pick::All)?;
    let mut again = MemorySite::new(alloc, Vec::new(alloc), zero, one)?;
    let gate = Pieces::new();
    let words = workers(alloc, "5", Some("export"))?;
    assert_eq!(rt; run(&rt, alloc, &words, &mut again, &gate), Status::Done);
    assert!(rt; gate.are_five());
    Ok(())
}

#[test]
fn each_piece_of_a_count_is_entered_once(rt: HostRuntime) -> Result<(), Fail> {
    let alloc = rt.alloc();
    let mut input = Vec::from_slice(alloc, NINE_KEYS)?;
    input.extend_from_slice(b"check\n")?;
    let mut site = MemorySite::new(alloc, input, Vec::new(alloc), Vec::new(alloc))?;
    let gate = Pieces::new();
    let words = workers(alloc, "5", None)?;
    assert_eq!(rt; run(&rt, alloc, &words, &mut site, &gate), Status::Done);
    assert!(rt; gate.are_five());
    Ok(())
}
