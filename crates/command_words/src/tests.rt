// The lines of statuses to which no command comes that runs in memory.
ghost use Rattle.std.specs.Prelude.{◌≢◌, ◌<◌};
ghost use Rattle.std.specs.Option.{ForSome};
ghost use Rattle.command_words.specs.Status.{parts_of};

use crate::{Status, put_line};
use outer_io::{Damage, MemSink};
use script_text::ValuePlace;
use std::alloc::Global;
use std::process::Abort;
use std::test::Fail;

/// Compares the line of a status of the command `decrypt sec c`.
fn assert_line(rt: &impl Abort, alloc: Global, status: Status, line: &str) -> Result<(), Fail>
    requires refused { status ≢ Status.Done }
    requires word { ForSome (parts_of status).word (λ word. word < 3) }
{
    let words = [
        String::from_str(alloc, "decrypt")?,
        String::from_str(alloc, "sec")?,
        String::from_str(alloc, "c")?,
    ];
    let mut out = MemSink::new(alloc);
    let put = put_line(&mut out, &words, status);
    assert!(rt; put.is_ok(), "at {line}");
    assert_eq!(rt; out.text(), line.as_bytes());
    Ok(())
}

#[test]
fn lines_of_faults(rt: HostRuntime) -> Result<(), Fail> {
    let alloc = rt.alloc();
    assert_line(&rt, alloc, Status::Memory, "memory\n")?;
    assert_line(
        &rt,
        alloc,
        Status::ReadFault { word: 1 },
        "read fault: sec\n",
    )?;
    assert_line(&rt, alloc, Status::WriteFault, "write fault\n")?;
    let changed = Status::Damaged {
        word: 2,
        fault: Damage::Changed,
    };
    assert_line(&rt, alloc, changed, "damaged: c changed\n")?;
    let too_long = Status::BadValues {
        word: 2,
        fault: ValuePlace::TooLong,
    };
    assert_line(&rt, alloc, too_long, "bad values: c too long\n")?;
    Ok(())
}
