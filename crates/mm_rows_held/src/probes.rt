//! Probes.

use mm_base::{Name, NoMemory};
use mm_model::{Command, Entry, Reply};
use mm_probe::{Counter, Probe};
use std::alloc::Global;
use std::test::Fail;

fn note(counter: &mut Counter, coll: Name, reply: Reply) {
    counter.note(&Entry {
        session: 1,
        line: 1,
        command: Command::Create { coll },
        reply,
    });
}

fn report_of(counter: &Counter, alloc: Global) -> Result<Vec<u8>, NoMemory> {
    let mut report = Vec::new(alloc);
    counter.report(&mut report)?;
    Ok(report)
}

#[test]
fn a_counter_counts_what_it_is_told(rt: HostRuntime) -> Result<(), Fail> {
    let coll = Name::new(b"c").ok_or(NoMemory)?;
    let mut counter = Counter::new();
    let before = report_of(&counter, rt.alloc())?;
    note(&mut counter, coll, Reply::Done(1));
    note(&mut counter, coll, Reply::NsFull);
    note(&mut counter, coll, Reply::Done(0));
    let after = report_of(&counter, rt.alloc())?;
    assert_eq!(rt; before.as_slice(), b"entries 0 ok 0 refused 0".as_slice());
    assert_eq!(rt; after.as_slice(), b"entries 3 ok 2 refused 1".as_slice());
    Ok(())
}
