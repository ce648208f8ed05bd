// Batches that are read and refused.
use crate::{MAX_COMMANDS, read_commands};
use script_text::{ScriptFault, ScriptPlace};
use std::alloc::Global;
use std::test::Fail;

/// The words of the commands, each followed by a blank, and a bar behind each command.
fn joined(alloc: Global, commands: &[Vec<String>]) -> Result<String, Fail> {
    let mut text = String::new(alloc);
    for words in commands {
        for word in words {
            text.push_str(word.as_str())?;
            text.push_str(" ")?;
        }
        text.push_str("|")?;
    }
    Ok(text)
}

#[test]
fn reads_commands(rt: HostRuntime) -> Result<(), Fail> {
    let alloc = rt.alloc();
    let rows: [(&[u8], &str); 7] = [
        (b"", ""),
        (b"\n \t\r\n", ""),
        (b"check s", "check s |"),
        (b"check s\n", "check s |"),
        (
            b"# a note\n\n  check\ts \r\n #\nno command\n",
            "check s |no command |",
        ),
        (b"secret toy16 ~! {}\n", "secret toy16 ~! {} |"),
        (b"a batch\nbatches x\n# \x80\n", "a batch |batches x |"),
    ];
    for (i, (text, commands)) in rows.iter().enumerate() {
        let read = read_commands(alloc, text)?;
        assert_eq!(rt; joined(alloc, &read)?.as_str(), *commands, "in row {i}");
    }
    Ok(())
}

#[test]
fn refuses_commands(rt: HostRuntime) -> Result<(), Fail> {
    let alloc = rt.alloc();
    let rows: [(&[u8], u32); 7] = [
        (b"batch other\n", 1),
        (b"batch", 1),
        (b"\n# note\n\tbatch a b c\n", 3),
        (b"check s\ncheck \x80\n", 2),
        (b"check s\x7f\n", 1),
        (b"check s\x00", 1),
        (b"check s\n\nno\x0bcommand\nbatch\n", 3),
    ];
    for (i, (text, line)) in rows.iter().enumerate() {
        let fault = read_commands(alloc, text).err();
        assert_eq!(rt;
            fault,
            Some(ScriptFault::Bad(ScriptPlace::Syntax(*line))),
            "in row {i}"
        );
    }
    Ok(())
}

#[test]
fn counts_commands(rt: HostRuntime) -> Result<(), Fail> {
    let alloc = rt.alloc();
    let mut text = Vec::new(alloc);
    for _ in 0..MAX_COMMANDS {
        text.extend_from_slice(b"c\n# \n")?;
    }
    let read = read_commands(alloc, &text)?;
    assert_eq!(rt; read.len(), MAX_COMMANDS);
    text.extend_from_slice(b"batch")?;
    let fault = read_commands(alloc, &text).err();
    assert_eq!(rt; fault, Some(ScriptFault::Bad(ScriptPlace::TooLong)));
    Ok(())
}
