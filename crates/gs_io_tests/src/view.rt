use gs_units::{END, Mode, Rate};
use gs_view::{Note, Publisher, Reader, Snap};
use std::alloc::{AllocError, Global};
use std::sync::Wait;
use std::test::Fail;
use std::thread::join;

fn snap(place: u64, l: u64, at: u64, mode: Mode) -> Snap {
    Snap { place, l, at, mode }
}

fn publish<R: Wait>(rt: &R, publisher: &mut Publisher, snap: Snap) -> Option<Note> {
    if publisher.last() > snap.place {
        return None;
    }
    publisher.publish(rt, snap).ok()
}

#[test]
fn a_clock_goes_on_from_its_snap_and_never_back(rt: HostRuntime) -> Result<(), Fail> {
    let rate = Rate::new(10_000, 10_001, 2_000)?;
    let first = snap(0, 2_000_000, 2_000_000, Mode::Slow);
    let (publisher, mut reader) = Publisher::new(rt.alloc(), rate, first)?;
    let before = reader.now(7);
    let after = reader.now(2_000_500);
    let back = reader.now(2_000_400);
    let end = reader.now(u64::MAX);
    publisher.end(&rt);
    assert_eq!(rt;
        (before, after, back, end),
        (2_000_000, 2_000_500, 2_000_500, END - 1)
    );
    Ok(())
}

#[test]
fn a_fast_clock_is_boosted(rt: HostRuntime) -> Result<(), Fail> {
    let rate = Rate::new(10_000, 10_001, 2_000)?;
    let first = snap(0, 1000, 1000, Mode::Fast);
    let (publisher, mut reader) = Publisher::new(rt.alloc(), rate, first)?;
    let answer = reader.now(11_000);
    publisher.end(&rt);
    assert_eq!(rt; answer, 11_020);
    Ok(())
}

/// The answers after the publisher's end: before a note, after the newer of two, after the older one.
fn answers_after_the_end<R: Wait>(
    rt: &R,
    alloc: Global,
    rate: Rate,
) -> Result<(u64, u64, u64), AllocError> {
    let (mut publisher, mut reader) = Publisher::new(alloc, rate, snap(0, 1, 20, Mode::Slow))?;
    let older = publish(rt, &mut publisher, snap(1, 10, 20, Mode::Slow));
    let newer = publish(rt, &mut publisher, snap(1, 20, 20, Mode::Slow));
    publisher.end(rt);
    let first = reader.now(0);
    reader.learn(newer.ok_or(AllocError)?);
    let second = reader.now(0);
    reader.learn(older.ok_or(AllocError)?);
    Ok((first, second, reader.now(25)))
}

#[test]
fn an_older_note_takes_nothing_back(rt: HostRuntime) -> Result<(), Fail> {
    let rate = Rate::new(10_000, 10_001, 2_000)?;
    assert_eq!(rt; answers_after_the_end(&rt, rt.alloc(), rate)?, (1, 20, 25));
    Ok(())
}

#[test]
fn another_reader_knows_what_was_published(rt: HostRuntime) -> Result<(), Fail> {
    let rate = Rate::new(10_000, 10_001, 2_000)?;
    let first = snap(0, 1, 20, Mode::Slow);
    let (mut publisher, mut reader) = Publisher::new(rt.alloc(), rate, first)?;
    let note = publish(&rt, &mut publisher, snap(1, 10, 20, Mode::Slow));
    let another = publisher.reader(rate);
    publisher.end(&rt);
    assert!(rt; note.is_some());
    assert_eq!(rt; (reader.now(0), another?.now(0)), (1, 10));
    Ok(())
}

/// Publishes one snap after the other and keeps the notes, and tells the place that was published last.
fn published_with_notes_kept<R: Wait>(
    rt: &R,
    alloc: Global,
    rate: Rate,
) -> Result<(u64, usize), AllocError> {
    let mut notes = Vec::with_capacity(alloc, 100)?;
    let (mut publisher, _reader) = Publisher::new(alloc, rate, snap(0, 0, 0, Mode::Slow))?;
    for place in 1..=100 {
        if let Some(note) = publish(rt, &mut publisher, snap(place, 0, 0, Mode::Slow)) {
            let _ = notes.push(note);
        }
    }
    let last = publisher.last();
    publisher.end(rt);
    Ok((last, notes.len()))
}

#[test]
fn notes_that_are_kept_take_places(rt: HostRuntime) -> Result<(), Fail> {
    let rate = Rate::new(10_000, 10_001, 2_000)?;
    assert_eq!(rt; published_with_notes_kept(&rt, rt.alloc(), rate)?, (63, 63));
    Ok(())
}

/// Asks until the clock is 1000, or for long enough. Tells how often it fell, and the last answer.
fn watch(mut reader: Reader) -> (u64, u64) {
    let mut falls = 0u64;
    let mut last = 0;
    for _ in 0..100_000_000u64 {
        let answer = reader.now(0);
        if answer < last {
            falls = falls.saturating_add(1);
        }
        last = answer;
        if last == 1000 {
            break;
        }
    }
    (falls, last)
}

#[test]
fn one_thread_publishes_and_another_reads(rt: HostRuntime) -> Result<(), Fail> {
    let rate = Rate::new(10_000, 10_001, 2_000)?;
    let (mut publisher, reader) = Publisher::new(rt.alloc(), rate, snap(0, 0, 0, Mode::Slow))?;
    let lent = &mut publisher;
    let host = &rt;
    let (seen, _done) = join(
        &rt,
        move || watch(reader),
        move || {
            for l in 1..=1000 {
                let _ = publish(host, &mut *lent, snap(l, l, l, Mode::Slow));
            }
        },
    );
    publisher.end(&rt);
    assert_eq!(rt; seen, (0, 1000));
    Ok(())
}
