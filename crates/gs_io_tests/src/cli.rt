use gs_cli::{Reply, Status, Stop, number_within};
use gs_io::MemSink;
use gs_text::Lines;
use std::alloc::Global;
use std::test::Fail;

/// Whether this reply is written as this text, and answers this status.
fn writes(alloc: Global, reply: &Reply, status: Status, text: &str) -> Result<bool, Fail> {
    let mut out = MemSink::new(alloc, Vec::new(alloc));
    let ended = reply.write(&mut out);
    Ok(ended == status && out.bytes() == text.as_bytes())
}

#[test]
fn a_reply_is_written_whole(rt: HostRuntime) -> Result<(), Fail> {
    let alloc = rt.alloc();
    let mut two = Lines::new(alloc);
    two.word("a")?;
    two.end()?;
    two.word("b")?;
    two.end()?;
    let text = Reply::Text(Status::Done, two);
    assert!(rt; writes(alloc, &text, Status::Done, "a\nb\n")?);
    let line = Reply::Line(Status::Usage, "usage\n");
    assert!(rt; writes(alloc, &line, Status::Usage, "usage\n")?);
    let file = Reply::File(b"version = 2".to_vec(alloc)?);
    assert!(rt; writes(alloc, &file, Status::Done, "version = 2")?);
    match Stop::refused(alloc, Status::PlanRefused, "plan refused: ", "toml") {
        Stop::Refused(reply) => {
            assert!(rt; writes(alloc, &reply, Status::PlanRefused, "plan refused: toml\n")?)
        }
        Stop::OutOfMemory => return Err(Fail::from("memory was refused")),
    }
    Ok(())
}

#[test]
fn a_write_that_fails_is_a_write_fault(rt: HostRuntime) -> Result<(), Fail> {
    let alloc = rt.alloc();
    let mut out = MemSink::new(alloc, [1].to_vec(alloc)?);
    let line = Reply::Line(Status::Usage, "usage\n");
    assert!(rt; line.write(&mut out) == Status::WriteFault);
    assert!(rt; out.bytes().is_empty());
    Ok(())
}

#[test]
fn words_spell_numbers_within_bounds(rt: HostRuntime) -> Result<(), Fail> {
    assert!(rt; number_within("1", 1, 64) == Some(1));
    assert!(rt; number_within("64", 1, 64) == Some(64));
    assert!(rt; number_within("0", 1, 64).is_none());
    assert!(rt; number_within("65", 1, 64).is_none());
    assert!(rt; number_within("", 0, 64).is_none());
    assert!(rt; number_within("+1", 0, 64).is_none());
    assert!(rt; Status::Done.code() == 0 && Status::StampEnd.code() == 17);
    Ok(())
}
