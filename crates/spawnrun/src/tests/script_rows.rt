//! Worked scripts.
use super::row::Row;
use spawnrun_lib::Status;

const TWO: &str = "{\"components\":[\"hp\"],\"frames\":[[[{\"spawn\":{\"hp\":5}}],\
    [{\"spawn\":{\"hp\":7}}]]]}";

const GONE: &str = "{\"components\":[\"hp\"],\"frames\":[[[{\"spawn\":{\"hp\":1}}]],\
    [[{\"despawn\":{\"handle\":\"0v1\"}}],[{\"insert\":{\"hp\":9},\
    \"on\":{\"handle\":\"0v1\"}}]]]}";

const AGAIN: &str = "{\"components\":[\"hp\"],\"frames\":[[[{\"spawn\":{\"hp\":1},\"as\":\"a\"},\
    {\"despawn\":{\"name\":\"a\"}},{\"remove\":\"hp\",\"on\":{\"name\":\"a\"}}]],\
    [[{\"spawn\":{\"hp\":2}}]]]}";

/// A script in which components are taken from and given to all that have one.
pub const EACH: &str = "{\"components\":[\"hp\",\"mp\"],\"frames\":[[[{\"spawn_many\":2,\
    \"with\":{\"hp\":1},\"as\":\"g\"},{\"insert\":{\"mp\":4},\
    \"on\":{\"name\":\"g\"}}]],[[{\"remove\":\"hp\",\"on\":{\"each\":\"hp\"}}],\
    [{\"insert\":{\"hp\":8},\"on\":{\"each\":\"mp\"}}]]]}";

const BIRTHS: &str = "{\"format\":2,\"components\":[\"hp\"],\"frames\":[[[{\"spawn_many\":2,\
    \"with\":{\"hp\":1}}],[{\"spawn\":{\"hp\":3}}]],\
    [[{\"despawn\":{\"birth\":\"0.0.1\"}},{\"insert\":{\"hp\":9},\
    \"on\":{\"birth\":\"0.1.0\"}},{\"remove\":\"hp\",\"on\":{\"birth\":\"0.0.7\"}}],\
    [{\"insert\":{\"hp\":4},\"on\":{\"birth\":\"0.0.1\"}}]],[[{\"insert\":{\"hp\":2},\
    \"on\":{\"birth\":\"0.0.1\"}}]]]}";

pub const SCRIPTS: &[Row] = &[
    // Two systems of one spawn each, on one worker, on two and on eight.
    Row {
        words: &["run", "--show", "handles"],
        input: TWO,
        status: Status::Done,
        output: "frame 0 born 2 faults 0\n0.0.0 0v1 hp=5\n0.1.0 1v1 hp=7\nalive 2\n",
    },
    Row {
        words: &["run", "--workers", "2"],
        input: TWO,
        status: Status::Done,
        output: "frame 0 born 2 faults 0\n0.0.0 hp=5\n0.1.0 hp=7\nalive 2\n",
    },
    Row {
        words: &["run", "--workers", "8"],
        input: TWO,
        status: Status::Done,
        output: "frame 0 born 2 faults 0\n0.0.0 hp=5\n0.1.0 hp=7\nalive 2\n",
    },
    // A command on an entity that the system before has despawned, on one worker, on two and on
    // eight.
    Row {
        words: &["run", "--show", "handles"],
        input: GONE,
        status: Status::Done,
        output: "frame 0 born 1 faults 0\nframe 1 born 0 faults 1\nfault 1 0 not alive 0v1\n\
            alive 0\n",
    },
    Row {
        words: &["run", "--workers", "2"],
        input: GONE,
        status: Status::Done,
        output: "frame 0 born 1 faults 0\nframe 1 born 0 faults 1\nfault 1 0 not alive\n\
            alive 0\n",
    },
    Row {
        words: &["run", "--workers", "8"],
        input: GONE,
        status: Status::Done,
        output: "frame 0 born 1 faults 0\nframe 1 born 0 faults 1\nfault 1 0 not alive\n\
            alive 0\n",
    },
    // A slot is given again, in its next generation, on one worker, on two and on eight.
    Row {
        words: &["run", "--show", "handles"],
        input: AGAIN,
        status: Status::Done,
        output: "frame 0 born 1 faults 1\nfault 0 2 not alive 0v1\nframe 1 born 1 faults 0\n\
            1.0.0 0v2 hp=2\nalive 1\n",
    },
    Row {
        words: &["run", "--workers", "2"],
        input: AGAIN,
        status: Status::Done,
        output: "frame 0 born 1 faults 1\nfault 0 2 not alive\nframe 1 born 1 faults 0\n\
            1.0.0 hp=2\nalive 1\n",
    },
    Row {
        words: &["run", "--workers", "8"],
        input: AGAIN,
        status: Status::Done,
        output: "frame 0 born 1 faults 1\nfault 0 2 not alive\nframe 1 born 1 faults 0\n\
            1.0.0 hp=2\nalive 1\n",
    },
    // Spawns for which too few slots are left.
    Row {
        words: &["run", "--show", "handles"],
        input: "{\"slots\":2,\"components\":[\"hp\"],\"frames\":[[[{\"spawn_many\":3},\
            {\"spawn\":{}}]],[[{\"spawn\":{\"hp\":1}}]]]}",
        status: Status::Done,
        output: "frame 0 born 0 faults 2\nfault 0 0 space wanted 3 left 2\n\
            fault 0 1 space wanted 1 left 0\nframe 1 born 1 faults 0\n1.0.0 0v1 hp=1\nalive 1\n",
    },
    // `each` means those that had the component as the frame began.
    Row {
        words: &["run", "--show", "handles"],
        input: EACH,
        status: Status::Done,
        output: "frame 0 born 2 faults 0\nframe 1 born 0 faults 0\n0.0.0 0v1 hp=8 mp=4\n\
            0.0.1 1v1 hp=8 mp=4\nalive 2\n",
    },
    // The flush comes before the commands, so the second one despawns what the third spawns.
    Row {
        words: &["run", "--show", "handles"],
        input: "{\"components\":[\"hp\"],\"frames\":[[[{\"insert\":{\"hp\":1},\
            \"on\":{\"handle\":\"4294967294v2147483647\"}},{\"despawn\":{\"handle\":\"0v1\"}},\
            {\"spawn\":{}}]]]}",
        status: Status::Done,
        output: "frame 0 born 1 faults 2\nfault 0 0 not alive 4294967294v2147483647\n\
            fault 0 2 not alive 0v1\nalive 0\n",
    },
    // A slot of one generation is retired.
    Row {
        words: &["run", "--show", "handles"],
        input: "{\"generations\":1,\"components\":[],\"frames\":[[[{\"spawn\":{},\"as\":\"a\"},\
            {\"despawn\":{\"name\":\"a\"}}]],[[{\"spawn\":{}}]]]}",
        status: Status::Done,
        output: "frame 0 born 1 faults 0\nframe 1 born 1 faults 0\n1.0.0 1v1\nalive 1\n",
    },
    // Births as targets, on one worker, on two and on eight.
    Row {
        words: &["run"],
        input: BIRTHS,
        status: Status::Done,
        output: "frame 0 born 3 faults 0\nframe 1 born 0 faults 1\nfault 1 0 not alive\n\
            frame 2 born 0 faults 0\n0.0.0 hp=1\n0.1.0 hp=9\nalive 2\n",
    },
    Row {
        words: &["run", "--workers", "2"],
        input: BIRTHS,
        status: Status::Done,
        output: "frame 0 born 3 faults 0\nframe 1 born 0 faults 1\nfault 1 0 not alive\n\
            frame 2 born 0 faults 0\n0.0.0 hp=1\n0.1.0 hp=9\nalive 2\n",
    },
    Row {
        words: &["run", "--workers", "8"],
        input: BIRTHS,
        status: Status::Done,
        output: "frame 0 born 3 faults 0\nframe 1 born 0 faults 1\nfault 1 0 not alive\n\
            frame 2 born 0 faults 0\n0.0.0 hp=1\n0.1.0 hp=9\nalive 2\n",
    },
    // A script of no frame.
    Row {
        words: &["run"],
        input: "{\"components\":[],\"frames\":[]}",
        status: Status::Done,
        output: "alive 0\n",
    },
    // Texts that are no script.
    Row {
        words: &["run"],
        input: "{\"components\":[\"hp\"],\"frames\":[",
        status: Status::Refused,
        output: "refused json\n",
    },
    Row {
        words: &["run"],
        input: "[]",
        status: Status::Refused,
        output: "refused script top\n",
    },
    Row {
        words: &["run"],
        input: "{\"components\":[\"hp\"],\"frames\":[[[{\"spawn\":{\"mp\":1}}]]]}",
        status: Status::Refused,
        output: "refused operation 0 0 0 component\n",
    },
    Row {
        words: &["run"],
        input: "{\"components\":[],\"frames\":[[[{\"spawn_many\":65537}]]]}",
        status: Status::Refused,
        output: "refused operation 0 0 0 count\n",
    },
    Row {
        words: &["run"],
        input: "{\"components\":[],\"frames\":[[[{\"spawn_many\":1.0}]]]}",
        status: Status::Refused,
        output: "refused operation 0 0 0 count\n",
    },
    Row {
        words: &["run"],
        input: "{\"format\":2,\"components\":[],\
            \"frames\":[[[{\"despawn\":{\"birth\":\"0.0.0\"}}]]]}",
        status: Status::Refused,
        output: "refused operation 0 0 0 birth\n",
    },
    Row {
        words: &["run"],
        input: "{\"format\":1,\"components\":[],\
            \"frames\":[[[{\"despawn\":{\"birth\":\"0.0.0\"}}]]]}",
        status: Status::Refused,
        output: "refused operation 0 0 0 target\n",
    },
    Row {
        words: &["run"],
        input: "{\"format\":3,\"components\":[],\
            \"frames\":[[[{\"despawn\":{\"birth\":\"0.0.0\"}}]]]}",
        status: Status::Refused,
        output: "refused script format\n",
    },
    Row {
        words: &["run"],
        input: "{\"format\":2,\"components\":[],\"frames\":[[],\
            [[{\"despawn\":{\"birth\":\"00.0.0\"}}]]]}",
        status: Status::Refused,
        output: "refused operation 1 0 0 birth\n",
    },
    Row {
        words: &["run"],
        input: "{\"format\":2,\"components\":[],\"frames\":[[],\
            [[{\"despawn\":{\"birth\":\"0.256.0\"}}]]]}",
        status: Status::Refused,
        output: "refused operation 1 0 0 birth\n",
    },
    Row {
        words: &["run"],
        input: "{\"format\":2,\"components\":[],\"frames\":[[],\
            [[{\"despawn\":{\"birth\":\"0.0.4294967296\"}}]]]}",
        status: Status::Refused,
        output: "refused operation 1 0 0 birth\n",
    },
    Row {
        words: &["run"],
        input: "{\"format\":2,\"components\":[],\"frames\":[[],\
            [[{\"despawn\":{\"birth\":\"0.0\"}}]]]}",
        status: Status::Refused,
        output: "refused operation 1 0 0 birth\n",
    },
    Row {
        words: &["run"],
        input: "{\"format\":2,\"components\":[],\"frames\":[[],\
            [[{\"despawn\":{\"birth\":\"1.0.0\"}}]]]}",
        status: Status::Refused,
        output: "refused operation 1 0 0 birth\n",
    },
];
