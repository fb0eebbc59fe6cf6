//! Checksums that the twin printed, times, and words of a command.
use crate::command::Command;
use crate::rounds::run_rounds;
use crate::times::Times;
use std::alloc::{AllocError, Global};
use std::test::Fail;
use std::time::{Duration, Instant};

fn command_of(alloc: Global, line: &str) -> Result<Option<Command>, AllocError> {
    let mut words = Vec::new(alloc);
    for word in line.split(' ') {
        words.push(String::from_str(alloc, word)?)?;
    }
    Ok(Command::of_words(&words))
}

#[test]
fn checksums_are_those_of_the_twin(rt: HostRuntime) -> Result<(), Fail> {
    for (task, want) in [
        ("and-dense", "words=9678 mix=9b7d55ca4838a67b"),
        ("and-sparse", "words=101 mix=a9ee8d4fec9f27ea"),
        ("and-clustered", "words=118 mix=23fe72f9f6f401e2"),
        ("and-mixed", "words=8133 mix=8c8b7212c12a5d72"),
        ("or-dense", "words=9678 mix=d4c3e5aa5f977b14"),
        ("or-sparse", "words=7577 mix=41f2c71af23ea5da"),
        ("or-clustered", "words=122 mix=673d096d11520e16"),
        ("or-mixed", "words=6567 mix=283186afc49eae0c"),
        ("xor-dense", "words=9678 mix=589ce0e2a5653ff1"),
        ("xor-sparse", "words=7501 mix=2f682a01233f683e"),
        ("xor-clustered", "words=232 mix=92b186c0a37b98c7"),
        ("xor-mixed", "words=9678 mix=5deec6c7f65bd87c"),
        ("not-dense", "words=9678 mix=727d52537a0824dc"),
        ("not-sparse", "words=5117 mix=dceab5927e12dcc7"),
        ("not-clustered", "words=108 mix=0a2f236ad1a276c2"),
        ("not-mixed", "words=5034 mix=79041ae4b33fa487"),
        ("count-dense", "words=3 mix=ba1f0ca6d3919b37"),
        ("count-sparse", "words=3 mix=ee277dab2bdd75b7"),
        ("count-clustered", "words=3 mix=ca7978cc88ad9e0c"),
        ("count-mixed", "words=3 mix=4c51cd7b26ec7952"),
        ("extended-dense", "words=9681 mix=2f8f881b60fc41f5"),
        ("extended-sparse", "words=5119 mix=e3efaa5821cd69fd"),
        ("extended-clustered", "words=114 mix=a7c8a4d32788214b"),
        ("extended-mixed", "words=5037 mix=6357bf5f443f4fdb"),
        ("from_places-sparse", "words=7146 mix=742c8ae54a7076ad"),
        ("toggled-dense", "words=9678 mix=84619df49c6dd622"),
        ("toggled-sparse", "words=5125 mix=468eb7d4df19a4ce"),
        ("toggled-clustered", "words=122 mix=0ada862fd949f39a"),
        ("toggled-mixed", "words=6586 mix=d38a55d4e5c0c227"),
        ("make-dense", "words=9681 mix=abd3e4549ed25665"),
        ("make-mixed", "words=8133 mix=37098fccbddc6ab8"),
        ("build-dense", "words=9681 mix=abd3e4549ed25665"),
        ("build-mixed", "words=8133 mix=37098fccbddc6ab8"),
        ("window-dense", "words=3 mix=33c4e42b7be7353e"),
        ("window-sparse", "words=3 mix=3e59e97f33f859a4"),
        ("window-clustered", "words=3 mix=9e0565e3787919e2"),
        ("window-mixed", "words=3 mix=099a6846265cb53e"),
        ("select-dense", "words=3 mix=8bbfb3dfb6a77157"),
        ("select-sparse", "words=3 mix=683b4eb63378c590"),
        ("select-clustered", "words=3 mix=2c7423a325083282"),
        ("select-mixed", "words=3 mix=3b2a67132a152a65"),
    ] {
        let line = format!(in rt.alloc(); "{task} 7 100003 3")?;
        let command = command_of(rt.alloc(), &line)?.ok_or("no command")?;
        let (checksum, _) = run_rounds(&rt, &command)?;
        let text = checksum.to_string(rt.alloc())?;
        assert_eq!(rt; text.as_str(), want, "at {task}");
    }
    Ok(())
}

#[test]
fn an_empty_vector_has_no_words(rt: HostRuntime) -> Result<(), Fail> {
    let command = command_of(rt.alloc(), "not-dense 7 0 3")?.ok_or("no command")?;
    let (checksum, _) = run_rounds(&rt, &command)?;
    assert_eq!(rt; (checksum.words, checksum.mix), (0, 0));
    Ok(())
}

#[test]
fn reads_words(rt: HostRuntime) -> Result<(), Fail> {
    let command = command_of(
        rt.alloc(),
        "or-sparse 18446744073709551615 4294967295 2 --times",
    )?
    .ok_or("no command")?;
    assert_eq!(rt;
        (command.seed, command.size, command.rounds),
        (u64::MAX, u32::MAX, 2)
    );
    assert!(rt; command.tells_times);
    for line in [
        "",
        "or-sparse 1 2",
        "or 1 2 3",
        "or-wide 1 2 3",
        "nor-sparse 1 2 3",
        "or-sparse 18446744073709551616 2 3",
        "or-sparse 1 4294967296 3",
        "or-sparse 1 2 0",
        "or-sparse 1 2 3 --time",
        "or-sparse 1 2 3 --times 4",
    ] {
        assert!(rt; command_of(rt.alloc(), line)?.is_none(), "at {line:?}");
    }
    Ok(())
}

#[test]
fn times_are_printed(rt: HostRuntime) -> Result<(), Fail> {
    let mut times = Times::new();
    for millis in [2_500, 1_001, 1_500] {
        times.add(Duration::from_millis(millis));
    }
    let text = times.to_string(rt.alloc())?;
    assert_eq!(rt; text.as_str(), "mean=1.667000000 least=1.001000000");
    Ok(())
}

// No clause says what lies between two readings of a clock. The kernel of this command takes nearly all of the
// time of a run, so a clock that starts behind it tells too little.
#[test]
fn the_kernel_is_timed(rt: HostRuntime) -> Result<(), Fail> {
    let command = command_of(rt.alloc(), "select-dense 7 8000 1000")?.ok_or("no command")?;
    let began = Instant::now(&rt)?;
    let (_, times) = run_rounds(&rt, &command)?;
    let whole = began.elapsed(&rt)?;
    assert!(rt; times.total <= whole);
    assert!(rt; times.total.as_nanos() >= whole.as_nanos() / 10);
    Ok(())
}
