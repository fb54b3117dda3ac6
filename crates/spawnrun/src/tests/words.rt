use ent_alloc::Limits;
use spawnrun_lib::{LineFault, Show, Task, command_line};
use std::alloc::Global;
use std::process::Abort;

const REPLAYS: &[(&[&str], u32, u32)] = &[
    (&["replay"], u32::MAX, 2_147_483_647),
    (&["replay", "--slots", "3"], 3, 2_147_483_647),
    (
        &["replay", "--slots=1", "--generations", "2147483647"],
        1,
        2_147_483_647,
    ),
    (
        &["replay", "--generations=2", "--slots=4294967295"],
        u32::MAX,
        2,
    ),
];

#[test]
fn options_have_ranges_and_defaults(rt: HostRuntime) {
    for (words, slots, generations) in REPLAYS {
        let limits = Limits::new(*slots, *generations).expect(&rt, "limits");
        assert!(rt; task(&rt, rt.alloc(), words) == Task::Replay(limits));
    }
}

// What the words ask for.
fn task(rt: &impl Abort, alloc: Global, words: &[&str]) -> Task {
    let Ok(task) = command_line(alloc, words) else {
        panic!(rt; "words that are taken")
    };
    task
}

const RUNS: &[(&[&str], usize, Show)] = &[
    (&["run"], 1, Show::Births),
    (&["run", "--workers", "2"], 2, Show::Births),
    (&["run", "--show", "handles"], 1, Show::Handles),
    (&["run", "--show=births", "--workers=64"], 64, Show::Births),
    (&["run", "--workers=8", "--show=handles"], 8, Show::Handles),
];

#[test]
fn a_run_has_workers_and_shows(rt: HostRuntime) {
    for (words, workers, show) in RUNS {
        let run = Task::Run {
            workers: *workers,
            show: *show,
        };
        assert!(rt; task(&rt, rt.alloc(), words) == run);
    }
}

const RUNS_IN_BLOCKS: &[(&[&str], u32, usize, Show)] = &[
    (&["run", "--blocks", "1"], 1, 1, Show::Births),
    (
        &["run", "--show=handles", "--blocks=4294967295"],
        u32::MAX,
        1,
        Show::Handles,
    ),
    (&["run", "--blocks=3", "--workers=64"], 3, 64, Show::Births),
];

#[test]
fn a_run_may_have_blocks(rt: HostRuntime) {
    for (words, size, workers, show) in RUNS_IN_BLOCKS {
        let run = Task::RunInBlocks {
            size: *size,
            workers: *workers,
            show: *show,
        };
        assert!(rt; task(&rt, rt.alloc(), words) == run);
    }
}

const REFUSED: &[&[&str]] = &[
    &[],
    &["run", "--blocks", "0"],
    &["run", "--blocks=4294967296"],
    &["replay", "--blocks", "1"],
    &["replay", "--slots", "0"],
    &["run", "--workers", "65"],
];

#[test]
fn words_that_ask_for_no_task(rt: HostRuntime) {
    for words in REFUSED {
        assert!(rt; matches!(command_line(rt.alloc(), words), Err(LineFault::Line(_))));
    }
}
