//! Two runs over real files.

use std::fs;
use std::test::Fail;
use wot_file::FileSite;
use wot_session::{Status, run};
use wot_workers::NoGate;

const EDITS: &[u8] = b"trust 00000000000000000000000000000000000000AA u
trust 00000000000000000000000000000000000000BB f
compact
";

const ENTRIES: &[u8] = b"00000000000000000000000000000000000000AA:6:
00000000000000000000000000000000000000BB:5:
ok
";

#[test]
fn real_files_keep_what_was_acknowledged(rt: HostRuntime) -> Result<(), Fail> {
    let alloc = rt.alloc();
    let words: Vec<String> = Vec::new(alloc);
    let runs: [(&[u8], &[u8]); 2] = [(EDITS, b"ok\nok\nok\n"), (b"export\n", ENTRIES)];
    for (input, wanted) in runs {
        let mut told = Vec::new(alloc);
        let mut site = FileSite::new(&rt, input, &mut told);
        assert_eq!(rt; run(&rt, alloc, &words, &mut site, &NoGate), Status::Done);
        drop(site);
        assert_eq!(rt; told.as_slice(), wanted);
    }
    fs::remove_file(&rt, "wot.0")?;
    fs::remove_file(&rt, "wot.1")?;
    Ok(())
}
