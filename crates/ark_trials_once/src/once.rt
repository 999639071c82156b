use crate::watched::Watched;
use ark_base::Status;
use ark_cli::{Task, WordsFault, arrakis, read_words};
use ark_host::Host;
use ark_media::Outside;
use ark_memory::MemoryWorld;
use ark_reading::read_line;
use ark_script::{Reply, Said};
use std::alloc::Global;
use std::mem::forget;
use std::test::Fail;

/// The replies to the script that comes one byte at a time.
const REPLIES: &[u8] = b"ready 200 0
ok
refused 2 unknown word
refused 4 name taken
refused 2 unknown word
ok
";

// `words`, as the command line gives them.
fn words_of(alloc: Global, words: &[&str]) -> Result<Vec<String>, Fail> {
    let mut list = Vec::new(alloc);
    for word in words {
        list.push(String::from_str(alloc, word)?)?;
    }
    Ok(list)
}

// The words of a command, by themselves.
#[test]
fn reads_words(rt: HostRuntime) -> Result<(), Fail> {
    let words = words_of(rt.alloc(), &["work", "1", "0", "d"])?;
    let task = read_words(rt.alloc(), &words);
    assert!(rt;
        matches!(
            task,
            Ok(Task::Work {
                seed: 1,
                lines: 0,
                device: "d"
            })
        )
    );
    let none = read_words(rt.alloc(), &[]);
    assert!(rt; matches!(none, Err(WordsFault::Usage)));
    Ok(())
}

// A host by itself makes a step, and counts it.
#[test]
fn makes_a_step(rt: HostRuntime) -> Result<(), Fail> {
    let mut world = MemoryWorld::new(rt.alloc(), b"", 400, b"", &[], 100, 100)?;
    let Ok(()) = world.make("d", 200) else {
        panic!(rt; "no device was made")
    };
    let mut reply = Reply::new(rt.alloc())?;
    let mut host = Host::new(rt.alloc(), 200)?;
    assert_eq!(rt; host.slots(), 0);
    assert_eq!(rt; host.lines(), 0);
    let line = *b"app a";
    match read_line(&line) {
        Ok(step) => host.step(&mut world, &step, &mut reply),
        Err(_) => assert!(rt; false),
    }
    assert_eq!(rt; *reply.said(), Said::Ok);
    assert_eq!(rt; host.slots(), 0);
    assert_eq!(rt; host.lines(), 1);
    // What dropping it does is no part of the test.
    forget(host);
    Ok(())
}

// A host that is loaded from the device that a run left has the run's slot.
#[test]
fn loads_what_a_run_left(rt: HostRuntime) -> Result<(), Fail> {
    let words = words_of(rt.alloc(), &["run", "--new", "200", "d"])?;
    let script = b"app a\nvsa a s 2 raw\n";
    let mut first = MemoryWorld::new(rt.alloc(), b"", 200, script, &[], 100, 2000)?;
    let status = arrakis(rt.alloc(), &words, &mut first);
    assert_eq!(rt; status, Status::Done);
    let mut world = MemoryWorld::new(rt.alloc(), first.image(), 200, b"", &[], 1000, 100)?;
    let Ok(()) = world.attach("d") else {
        panic!(rt; "no device was attached")
    };
    let Ok(mut host) = Host::load(rt.alloc(), &mut world) else {
        panic!(rt; "no host was loaded")
    };
    assert_eq!(rt; host.slots(), 1);
    let mut reply = Reply::new(rt.alloc())?;
    let line = *b"app a";
    match read_line(&line) {
        Ok(step) => host.step(&mut world, &step, &mut reply),
        Err(_) => assert!(rt; false),
    }
    assert_eq!(rt; *reply.said(), Said::Ok);
    assert_eq!(rt; host.slots(), 1);
    // What dropping it does is no part of the test.
    forget(host);
    Ok(())
}

// A script that comes one byte at a time has the same replies, and the device that is made has the name that was given.
#[test]
fn answers_byte_by_byte(rt: HostRuntime) -> Result<(), Fail> {
    let script = b"app a\n\napp a\nfrob\napp b";
    let words = words_of(rt.alloc(), &["run", "--new", "200", "d"])?;
    let inner = MemoryWorld::new(rt.alloc(), b"", 400, script, &[], 100, 2000)?;
    let mut world = Watched {
        inner,
        made_d: false,
    };
    let status = arrakis(rt.alloc(), &words, &mut world);
    assert_eq!(rt; status, Status::Done);
    assert_eq!(rt; world.inner.out(), REPLIES);
    assert!(rt; world.made_d);
    Ok(())
}
