//! Worked rows of `replay` and of `run`, over devices in memory.
use super::memory::{MemorySink, NEVER};
use super::row::{Row, ended, gives};
use super::schedule_rows::SCHEDULES;
use super::script_rows::{EACH, SCRIPTS};
use super::source::{LineFeeds, MemorySource};
use ent_handle::Memory;
use spawnrun_lib::Status;
use std::alloc::Global;
use std::process::Abort;
use std::test::Fail;
use std::thread::Threads;

#[test]
fn each_row_of_a_schedule(rt: HostRuntime) {
    are_given(&rt, rt.alloc(), SCHEDULES);
}

#[test]
fn each_row_of_a_script(rt: HostRuntime) {
    are_given(&rt, rt.alloc(), SCRIPTS);
}

fn are_given<R>(rt: &R, alloc: Global, rows: &[Row])
where
    R: Abort + Threads + Sync,
{
    for row in rows {
        let (input, output) = (row.input.as_bytes(), row.output.as_bytes());
        let holds = gives(rt, alloc, row.words, input, row.status, output);
        assert!(rt; holds, "on {}", row.input);
    }
}

// Checks that no beginning of a script is a script.
#[test]
fn each_beginning_of_a_script(rt: HostRuntime) {
    let script = EACH.as_bytes();
    for end in 0..script.len() {
        assert!(rt;
            gives(
                &rt,
                rt.alloc(),
                &["run"],
                &script[..end],
                Status::Refused,
                b"refused json\n"
            )
        );
    }
}

#[test]
fn a_name_that_is_no_text(rt: HostRuntime) {
    let script = b"{\"components\":[\"h\xff\"],\"frames\":[]}";
    assert!(rt;
        gives(
            &rt,
            rt.alloc(),
            &["run"],
            script,
            Status::Refused,
            b"refused json\n"
        )
    );
}

#[test]
fn lists_that_nest_too_deep(rt: HostRuntime) -> Result<(), Fail> {
    let mut lists = Vec::new(rt.alloc());
    for bracket in [b'[', b']'] {
        for _ in 0..200 {
            lists.push(bracket)?;
        }
    }
    assert!(rt;
        gives(
            &rt,
            rt.alloc(),
            &["run"],
            &lists,
            Status::Refused,
            b"refused json\n"
        )
    );
    Ok(())
}

// 256 requests of the greatest count leave 256 of a caller's quota.
const QUOTA: &[u8] = b"begin 1 257\nbegin 1 256\nstep 1\nanswer 1\nbegin 1 1\nbegin 1 0\nstep 1\n\
    answer 1\nflush\n";

const QUOTA_OUTPUT: &[u8] = b"quota left 256\nopen\ncursor -1099511627776\n\
    space wanted 256 left 0\nquota left 0\nopen\ncursor -1099511627776\n\nborn\n";

#[test]
fn a_quota_that_is_used_up(rt: HostRuntime) -> Result<(), Fail> {
    let (input, output) = quota(rt.alloc())?;
    assert!(rt;
        gives(
            &rt,
            rt.alloc(),
            &["replay", "--slots", "1"],
            &input,
            Status::Done,
            &output
        )
    );
    Ok(())
}

// The schedule, and what it gives.
fn quota(alloc: Global) -> Result<(Vec<u8>, Vec<u8>), Memory> {
    let mut input = Vec::new(alloc);
    let mut output = Vec::new(alloc);
    for number in 1..=256 {
        input.extend_from_slice(b"begin 1 4294967295\nstep 1\nanswer 1\n")?;
        output.extend_from_slice(refused_request(alloc, number)?.as_bytes())?;
    }
    input.extend_from_slice(QUOTA)?;
    output.extend_from_slice(QUOTA_OUTPUT)?;
    Ok((input, output))
}

// What the request of this number gives. The first one says that one slot was left.
fn refused_request(alloc: Global, number: u32) -> Result<String, Memory> {
    let cursor = u64::from(number) * 4_294_967_295;
    let left = if number == 1 { 1 } else { 0 };
    let lines = "space wanted 4294967295";
    Ok(format!(in alloc; "open\ncursor -{cursor}\n{lines} left {left}\n")?)
}

const WORDS: &[&[&str]] = &[&["replay"], &["run"]];

// Of a source without end, one byte more than the limit is read.
#[test]
fn a_source_without_end(rt: HostRuntime) {
    for words in WORDS {
        let mut output = MemorySink::new(rt.alloc(), NEVER);
        assert!(rt; ends_endless(&rt, rt.alloc(), words, &mut output) == Status::Refused);
        assert!(rt; output.bytes.as_slice() == b"refused size\n".as_slice());
    }
}

#[test]
fn a_source_without_end_and_a_sink_that_fails(rt: HostRuntime) {
    for words in WORDS {
        let mut output = MemorySink::new(rt.alloc(), 0);
        assert!(rt; ends_endless(&rt, rt.alloc(), words, &mut output) == Status::Device);
        assert!(rt; output.bytes.is_empty());
    }
}

fn ends_endless<R>(rt: &R, alloc: Global, words: &[&str], output: &mut MemorySink) -> Status
where
    R: Abort + Threads + Sync,
{
    let mut input = LineFeeds { taken: 0 };
    let status = ended(rt, alloc, words, &mut input, output);
    assert!(rt; input.taken == 67_108_865);
    status
}

// An input is read by two calls at least: the second finds its end. The output is one call.
const TASKS: &[(&[&str], &str)] = &[(&["replay"], "alloc\n"), (&["run"], EACH)];

#[test]
fn each_read_that_fails(rt: HostRuntime) {
    for (words, text) in TASKS {
        for (calls, status) in [(0, Status::Device), (1, Status::Device), (2, Status::Done)] {
            let mut input = MemorySource::new(text.as_bytes(), calls);
            let mut output = MemorySink::new(rt.alloc(), NEVER);
            assert!(rt; ended(&rt, rt.alloc(), words, &mut input, &mut output) == status);
            assert!(rt; output.bytes.is_empty() == (status == Status::Device));
        }
    }
}

#[test]
fn each_write_that_fails(rt: HostRuntime) {
    for (words, text) in TASKS {
        for (calls, status) in [(0, Status::Device), (1, Status::Done)] {
            let mut input = MemorySource::new(text.as_bytes(), NEVER);
            let mut output = MemorySink::new(rt.alloc(), calls);
            assert!(rt; ended(&rt, rt.alloc(), words, &mut input, &mut output) == status);
        }
    }
}
