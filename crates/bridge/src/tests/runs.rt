// The top call over devices in memory that fail at a given call.
use bridge_io::{MemoryShelf, MemorySink};
use model_command::run;
use std::alloc::{AllocError, Global};

// Two processes and a lock.
const LOCK: &[u8] =
    b"// two processes, one lock\nmdp\nconst int K = 2;\nglobal lock : [0..1] init 0;\nformula crit = (p1=2 ? 1 : 0) + (p2=2 ? 1 : 0);\nmodule proc1\n  p1 : [0..2] init 0;\n  n1 : [0..K];\n  [] p1=0 -> 0.9 : (p1'=1) + 0.1 : true;\n  [] p1=1 & lock=0 -> (p1'=2) & (lock'=1);\n  [] p1=2 & n1<K -> (p1'=0) & (n1'=n1+1) & (lock'=0);\n  [done] n1=K -> true;\nendmodule\nmodule proc2 = proc1 [p1=p2, p2=p1, n1=n2] endmodule\nlabel \"mutex\" = crit<=1;\nrewards \"work\"\n  p1=2 | p2=2 : 1;\nendrewards\nrewards \"rounds\"\n  [done] true : 1;\nendrewards\n";

// Vectors that are split by rewards.
const SPLIT: &[u8] =
    b"{\"jani-version\":1,\"name\":\"m\",\"type\":\"mdp\",\n\"actions\":[{\"name\":\"go\"},{\"name\":\"ok\"},{\"name\":\"never\"},{\"name\":\"step\"}],\n\"variables\":[{\"name\":\"x\",\"type\":{\"kind\":\"bounded\",\"base\":\"int\",\"lower-bound\":0,\"upper-bound\":2},\n \"initial-value\":0},{\"name\":\"r\",\"type\":\"real\",\"transient\":true,\"initial-value\":0}],\n\"automata\":[{\"name\":\"D\",\"locations\":[{\"name\":\"idle\"},{\"name\":\"busy\"}],\"initial-locations\":[\"idle\"],\"edges\":[\n {\"location\":\"idle\",\"action\":\"go\",\"guard\":{\"exp\":{\"op\":\"<\",\"left\":\"x\",\"right\":2}},\"destinations\":[{\"location\":\n \"busy\",\"assignments\":[{\"ref\":\"x\",\"value\":{\"op\":\"+\",\"left\":\"x\",\"right\":1}},{\"ref\":\"r\",\"value\":1}]}]},\n {\"location\":\"idle\",\"action\":\"go\",\"destinations\":[{\"location\":\"busy\",\"assignments\":[{\"ref\":\"r\",\"value\":2}]}]},\n {\"location\":\"busy\",\"destinations\":[{\"location\":\"idle\"}]}]},\n {\"name\":\"B\",\"locations\":[{\"name\":\"l\"}],\"initial-locations\":[\"l\"],\"edges\":[\n {\"location\":\"l\",\"action\":\"ok\",\"destinations\":[{\"location\":\"l\"}]}]}],\n\"system\":{\"elements\":[{\"automaton\":\"D\"},{\"automaton\":\"B\"}],\"syncs\":[{\"synchronise\":[\"go\",\"ok\"],\n \"result\":\"step\"},{\"synchronise\":[\"go\",null],\"result\":\"step\"},{\"synchronise\":[\"go\",\"never\"]}]}}";

// A choice between a coin and a step that is sure.
const COIN: &[u8] =
    b"mdp\nmodule M\n  x : [0..2] init 0;\n  [a] x=0 -> 1/4 : (x'=1) + 3/4 : (x'=2);\n  [] x=0 -> (x'=2);\n  [] x>0 -> true;\nendmodule\n";

// A JANI file with a property.
const WITH_PROPERTY: &[u8] =
    b"{\"jani-version\":1,\"name\":\"m\",\"type\":\"mdp\",\"properties\":[{\"name\":\"p\",\"expression\":{\"op\":\"filter\",\"fun\":\"min\",\"values\":{\"op\":\"Pmax\",\"exp\":{\"op\":\"F\",\"exp\":true}},\"states\":{\"op\":\"initial\"}}}],\n\"variables\":[{\"name\":\"x\",\"type\":{\"kind\":\"bounded\",\"base\":\"int\",\"lower-bound\":0,\"upper-bound\":2},\"initial-value\":0}],\n\"automata\":[{\"name\":\"M\",\"locations\":[{\"name\":\"l\"}],\"initial-locations\":[\"l\"],\"edges\":[]}],\n\"system\":{\"elements\":[{\"automaton\":\"M\"}]}}\n";

// A command, the files that it names, in the order of their words, and the status that it ends with.
#[derive(Clone, Copy)]
struct Command {
    words: &'static [&'static str],
    files: &'static [(&'static str, &'static [u8])],
    status: u8,
}

const COMMANDS: [Command; 13] = [
    Command {
        words: &["to-jani", "f"],
        files: &[("f", LOCK)],
        status: 0,
    },
    Command {
        words: &["to-jani", "f", "q"],
        files: &[("f", LOCK), ("q", b"Pmax=? [ F \"mutex\" ]\n")],
        status: 0,
    },
    Command {
        words: &["to-prism", "f"],
        files: &[("f", SPLIT)],
        status: 0,
    },
    Command {
        words: &["to-prism-props", "f"],
        files: &[("f", WITH_PROPERTY)],
        status: 0,
    },
    Command {
        words: &["show", "jani", "f", "(0,0,0)"],
        files: &[("f", SPLIT)],
        status: 0,
    },
    Command {
        words: &["simulate", "prism", "f", "given", "0,0,9,9"],
        files: &[("f", LOCK)],
        status: 1,
    },
    Command {
        words: &["check-path", "prism", "f", "p"],
        files: &[("f", COIN), ("p", b"(x)\n(0)\na (1)\n- (0)\n")],
        status: 1,
    },
    Command {
        words: &["check-rows", "prism", "f", "s", "r"],
        files: &[
            ("f", COIN),
            ("s", b"(x)\n0:(0)\n1:(1)\n2:(2)\n"),
            (
                "r",
                b"3 4 5\n0 0 1 0.25 a\n0 0 2 0.75 a\n0 1 2 1\n1 0 1 1\n2 0 2 1\n",
            ),
        ],
        status: 0,
    },
    Command {
        words: &["carry-path", "prism", "f", "p"],
        files: &[("f", COIN), ("p", b"(x)\n(0)\na (1)\n- (1)\n")],
        status: 0,
    },
    Command {
        words: &["carry-path", "jani", "f", "p"],
        files: &[
            ("f", SPLIT),
            ("p", b"(@0,@1,#0)\n(0,0,0)\nstep (1,0,0)\ngo (0,0,0)\n"),
        ],
        status: 1,
    },
    Command {
        words: &["specialise", "prism", "f"],
        files: &[("f", LOCK)],
        status: 0,
    },
    Command {
        words: &["specialise", "jani", "f", "q=1"],
        files: &[("f", SPLIT)],
        status: 3,
    },
    Command {
        words: &["generate", "3"],
        files: &[],
        status: 0,
    },
];

// The shelf, the output and the errors of a run.
#[derive(Drop)]
struct Devices {
    shelf: MemoryShelf,
    out: MemorySink,
    err: MemorySink,
}

// The calls at which devices fail; none fails at call 0.
#[derive(Clone, Copy)]
struct Failing {
    read: u64,
    write: u64,
    tell: u64,
}

const NEVER: Failing = Failing {
    read: 0,
    write: 0,
    tell: 0,
};

// A shelf with these files.
fn shelf_with(
    alloc: Global,
    files: &[(&str, &[u8])],
    read: u64,
) -> Result<MemoryShelf, AllocError> {
    let mut shelf = MemoryShelf::new(alloc);
    for (name, file) in files {
        shelf.put(name, file)?;
    }
    shelf.fail_call(read)?;
    Ok(shelf)
}

fn sink_with(alloc: Global, most: usize, call: u64) -> Result<MemorySink, AllocError> {
    let mut sink = MemorySink::new(alloc, most.max(1), 10_000)?;
    sink.fail_call(call)?;
    Ok(sink)
}

fn words(alloc: Global, texts: &[&str]) -> Result<Vec<String>, AllocError> {
    let mut words = Vec::new(alloc);
    for text in texts {
        words.push(String::from_str(alloc, text)?)?;
    }
    Ok(words)
}

// The status of a run over these files, and its devices. The output is taken a hundred bytes a call, the errors three.
fn ended(
    alloc: Global,
    texts: &[&str],
    files: &[(&str, &[u8])],
    failing: Failing,
) -> Result<(u8, Devices), AllocError> {
    let words = words(alloc, texts)?;
    let mut devices = Devices {
        shelf: shelf_with(alloc, files, failing.read)?,
        out: sink_with(alloc, 100, failing.write)?,
        err: sink_with(alloc, 3, failing.tell)?,
    };
    let status = run(
        alloc,
        &words,
        &mut devices.shelf,
        &mut devices.out,
        &mut devices.err,
    );
    Ok((status, devices))
}

// Whether a run in which this read of the file of this name fails says so, and writes nothing.
fn tells_the_file(
    alloc: Global,
    command: Command,
    name: &str,
    read: u64,
) -> Result<bool, AllocError> {
    let told = format!(in alloc; "bridge: read fault {name}\n")?;
    let (status, devices) = ended(
        alloc,
        command.words,
        command.files,
        Failing { read, ..NEVER },
    )?;
    Ok(
        status == 4
            && devices.out.taken().is_empty()
            && devices.err.taken() == told.as_str().as_bytes(),
    )
}

// Whether a run of a command ends as it does, if no read fails, up to this one.
fn meets_no_read(alloc: Global, command: Command, read: u64) -> Result<bool, AllocError> {
    let (status, _) = ended(
        alloc,
        command.words,
        command.files,
        Failing { read, ..NEVER },
    )?;
    Ok(status == command.status)
}

#[test]
fn each_read_may_fail(rt: HostRuntime) {
    for command in COMMANDS {
        // A piece of each file, and a call that gives none.
        let mut read = 0u64;
        for (name, _) in command.files {
            for _ in 0..2u8 {
                read = read.saturating_add(1);
                let right = tells_the_file(rt.alloc(), command, name, read);
                assert!(rt; matches!(right, Ok(true)), "{read}");
            }
        }
        let right = meets_no_read(rt.alloc(), command, read.saturating_add(1));
        assert!(rt; matches!(right, Ok(true)), "{read}");
    }
}

#[test]
fn a_later_piece_may_fail(rt: HostRuntime) -> Result<(), AllocError> {
    let mut file = Vec::new(rt.alloc());
    file.resize(10_000, b' ')?;
    file.extend_from_slice(COIN)?;
    // Three pieces of 4,096 bytes, and a call that gives none.
    for read in 1..6u64 {
        let (status, devices) = ended(
            rt.alloc(),
            &["to-jani", "f"],
            &[("f", &file)],
            Failing { read, ..NEVER },
        )?;
        let none = devices.out.taken().is_empty();
        assert!(rt;
            if read < 5 {
                status == 4 && none
            } else {
                status == 0 && !none
            },
            "{read}"
        );
    }
    Ok(())
}

// Whether a run in which this write fails has written the front of the whole text that stands before it, and says so; or, where the text
// ends before it, the whole.
fn writes_a_front(
    alloc: Global,
    command: Command,
    whole: &[u8],
    write: u64,
    written: usize,
) -> Result<bool, AllocError> {
    let (status, devices) = ended(
        alloc,
        command.words,
        command.files,
        Failing { write, ..NEVER },
    )?;
    let fails = written < whole.len();
    let front = written.min(whole.len());
    let told = devices.err.taken() == b"bridge: write fault\n".as_slice();
    Ok(
        devices.out.taken() == &whole[..front]
            && status == (if fails { 5 } else { command.status })
            && (told || !fails),
    )
}

// Whether each write of a command fails so.
fn writes_fronts(alloc: Global, command: Command) -> Result<bool, AllocError> {
    let (_, devices) = ended(alloc, command.words, command.files, NEVER)?;
    let whole = devices.out.taken();
    let mut written = 0usize;
    for write in 1..50u64 {
        if !writes_a_front(alloc, command, whole, write, written)? {
            return Ok(false);
        }
        written = written.saturating_add(100);
    }
    Ok(whole.len() < written)
}

#[test]
fn each_write_may_fail(rt: HostRuntime) {
    for command in COMMANDS {
        let right = writes_fronts(rt.alloc(), command);
        assert!(rt; matches!(right, Ok(true)));
    }
}

#[test]
fn what_is_told_may_be_cut_short(rt: HostRuntime) -> Result<(), AllocError> {
    let rows: [(&[u8], u64, u64, &'static [u8]); 3] = [
        (COIN, 1, 1, b""),
        (b"mdp", 0, 1, b""),
        (b"mdp", 0, 2, b"f:1"),
    ];
    for (file, write, tell, told) in rows {
        let failing = Failing {
            write,
            tell,
            ..NEVER
        };
        let (status, devices) = ended(rt.alloc(), &["to-jani", "f"], &[("f", file)], failing)?;
        let none = devices.out.taken().is_empty();
        assert!(rt;
            status == 5 && none && devices.err.taken() == told,
            "{tell}"
        );
    }
    Ok(())
}
