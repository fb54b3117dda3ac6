//! Worked schedules.
use super::row::Row;
use spawnrun_lib::Status;

pub const SCHEDULES: &[Row] = &[
    // One bulk takes a freed slot and a fresh one. A flush lists the fresh one first.
    Row {
        words: &["replay"],
        input: "alloc\nalloc\nfree 0v1\nbegin 1 2\nstep 1\nanswer 1\nflush\n",
        status: Status::Done,
        output: "0v1\n1v1\nfreed 0v1 next 0v2\nopen\ncursor -1\n0v2 2v1\nborn 2v1 0v2\n",
    },
    // One bulk of four, and four single requests.
    Row {
        words: &["replay"],
        input: "alloc\nalloc\nalloc\nfree 2v1\nfree 0v1\nbegin 1 4\nstep 1\nanswer 1\nflush\n",
        status: Status::Done,
        output: "0v1\n1v1\n2v1\nfreed 2v1 next 2v2\nfreed 0v1 next 0v2\nopen\ncursor -2\n\
            2v2 0v2 3v1 4v1\nborn 3v1 4v1 2v2 0v2\n",
    },
    Row {
        words: &["replay"],
        input: "alloc\nalloc\nalloc\nfree 2v1\nfree 0v1\nbegin 1 1\nstep 1\nanswer 1\nbegin 1 1\n\
            step 1\nanswer 1\nbegin 1 1\nstep 1\nanswer 1\nbegin 1 1\nstep 1\nanswer 1\nflush\n",
        status: Status::Done,
        output: "0v1\n1v1\n2v1\nfreed 2v1 next 2v2\nfreed 0v1 next 0v2\nopen\ncursor 1\n0v2\nopen\n\
            cursor 0\n2v2\nopen\ncursor -1\n3v1\nopen\ncursor -2\n4v1\nborn 3v1 4v1 2v2 0v2\n",
    },
    // Answers come in the other order than steps.
    Row {
        words: &["replay"],
        input: "alloc\nfree 0v1\nbegin 1 1\nbegin 2 2\nstep 2\nstep 1\nanswer 1\nanswer 2\nflush\n",
        status: Status::Done,
        output: "0v1\nfreed 0v1 next 0v2\nopen\nopen\ncursor -1\ncursor -2\n2v1\n0v2 1v1\n\
            born 1v1 2v1 0v2\n",
    },
    // The empty schedule.
    Row {
        words: &["replay"],
        input: "",
        status: Status::Done,
        output: "",
    },
    // A request for no handle is answered by an empty line.
    Row {
        words: &["replay"],
        input: "begin 1 0\nstep 1\nanswer 1\nflush\n",
        status: Status::Done,
        output: "open\ncursor 0\n\nborn\n",
    },
    // Slots run out, and a flush makes what was passed over available again.
    Row {
        words: &["replay", "--slots", "3"],
        input: "begin 1 2\nstep 1\nanswer 1\nbegin 1 2\nstep 1\nanswer 1\nbegin 1 1\nstep 1\n\
            answer 1\nflush\nbegin 1 1\nstep 1\nanswer 1\n",
        status: Status::Done,
        output: "open\ncursor -2\n0v1 1v1\nopen\ncursor -4\nspace wanted 2 left 1\nopen\ncursor -5\n\
            space wanted 1 left 0\nborn 0v1 1v1\nopen\ncursor -1\n2v1\n",
    },
    // `alloc` is refused while a call is open, or while something is reserved.
    Row {
        words: &["replay"],
        input: "begin 1 1\nalloc\nstep 1\nanswer 1\nalloc\nflush\nalloc\n",
        status: Status::Done,
        output: "open\nbusy\ncursor -1\n0v1\nneeds flush\nborn 0v1\n1v1\n",
    },
    // Handles that are gone, that are reserved, and whose slot was never made.
    Row {
        words: &["replay"],
        input: "alloc\nfree 0v1\nfree 0v1\nfree 0v2\nfree 9v1\n",
        status: Status::Done,
        output: "0v1\nfreed 0v1 next 0v2\nnot alive\nnot alive\nnot alive\n",
    },
    // A slot is retired after its last generation.
    Row {
        words: &["replay", "--generations", "2"],
        input: "alloc\nfree 0v1\nalloc\nfree 0v2\nalloc\n",
        status: Status::Done,
        output: "0v1\nfreed 0v1 next 0v2\n0v2\nfreed 0v2 retired\n1v1\n",
    },
    Row {
        words: &["replay", "--slots", "1", "--generations", "1"],
        input: "alloc\nfree 0v1\nalloc\nbegin 1 1\nstep 1\nanswer 1\nalloc\nflush\n",
        status: Status::Done,
        output: "0v1\nfreed 0v1 retired\nspace wanted 1 left 0\nopen\ncursor -1\n\
            space wanted 1 left 0\nneeds flush\nborn\n",
    },
    // Events out of turn.
    Row {
        words: &["replay"],
        input: "step 5\nbegin 1 1\nbegin 1 1\nanswer 1\nstep 1\nstep 1\nanswer 1\nanswer 1\n\
            begin 1024 1\n",
        status: Status::Done,
        output: "not open\nopen\nalready open\nnot stepped\ncursor -1\nalready stepped\n0v1\n\
            not open\ncaller\n",
    },
    // The first caller and the last.
    Row {
        words: &["replay"],
        input: "begin 0 1\nbegin 1023 1\nstep 1023\nfree 0v1\nstep 0\nanswer 0\nanswer 1023\n\
            flush\n",
        status: Status::Done,
        output: "open\nopen\ncursor -1\nbusy\ncursor -2\n1v1\n0v1\nborn 0v1 1v1\n",
    },
    // A call may be left open.
    Row {
        words: &["replay"],
        input: "begin 1 1\nstep 1\n",
        status: Status::Done,
        output: "open\ncursor -1\n",
    },
    // Texts that are no schedule.
    Row {
        words: &["replay"],
        input: "alloc\nfree 0v0\n",
        status: Status::Refused,
        output: "refused line 2 handle\n",
    },
    Row {
        words: &["replay"],
        input: "alloc \n",
        status: Status::Refused,
        output: "refused line 1 count\n",
    },
    Row {
        words: &["replay"],
        input: "\n",
        status: Status::Refused,
        output: "refused line 1 word\n",
    },
    Row {
        words: &["replay"],
        input: "begin 1 4294967296\n",
        status: Status::Refused,
        output: "refused line 1 number\n",
    },
    Row {
        words: &["replay"],
        input: "begin 01 1\n",
        status: Status::Refused,
        output: "refused line 1 number\n",
    },
    Row {
        words: &["replay"],
        input: "alloc\nal",
        status: Status::Refused,
        output: "refused line 2 word\n",
    },
    Row {
        words: &["replay"],
        input: "alloc\nbegin 1",
        status: Status::Refused,
        output: "refused line 2 count\n",
    },
    Row {
        words: &["replay"],
        input: "alloc\nalloc\nfree 0v",
        status: Status::Refused,
        output: "refused line 3 handle\n",
    },
    Row {
        words: &["replay"],
        input: "alloc\r\n",
        status: Status::Refused,
        output: "refused line 1 word\n",
    },
];
