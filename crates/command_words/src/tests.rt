use crate::{CanonVersion, Command, Limits, PcapOutput, WordsRefusal, read_words};
use std::alloc::{AllocError, Global};
use std::test::Fail;
use wire_spec::Pad;

fn numbers_of(alloc: Global, limits: &Limits) -> Result<String, AllocError> {
    format!(in alloc;
        "{} {} {} {} {}",
        limits.streams,
        limits.sources,
        limits.datagram_width,
        limits.sample_width,
        limits.boot_slack
    )
}

// What was read, in short.
fn told(alloc: Global, read: &Result<Command<'_>, WordsRefusal>) -> Result<String, AllocError> {
    match read {
        Err(WordsRefusal::Usage) => String::from_str(alloc, "usage"),
        Err(WordsRefusal::Memory) => String::from_str(alloc, "memory"),
        Ok(Command::Replay { limits, interfaces }) => {
            let numbers = numbers_of(alloc, limits)?;
            format!(in alloc; "replay {numbers} {interfaces}")
        }
        Ok(Command::Show) => String::from_str(alloc, "show"),
        Ok(Command::Check { pad: Pad::Any }) => String::from_str(alloc, "check"),
        Ok(Command::Check { pad: Pad::Zero }) => String::from_str(alloc, "check zero"),
        Ok(
            Command::Canon {
                version: CanonVersion::Same,
            },
        ) => String::from_str(alloc, "canon"),
        Ok(
            Command::Canon {
                version: CanonVersion::Two,
            },
        ) => String::from_str(alloc, "canon two"),
        Ok(
            Command::Pcap {
                output: PcapOutput::Capture,
            },
        ) => String::from_str(alloc, "pcap"),
        Ok(
            Command::Pcap {
                output: PcapOutput::Counts,
            },
        ) => String::from_str(alloc, "pcap counts"),
        Ok(Command::Collect { asked }) => {
            let numbers = numbers_of(alloc, &asked.limits)?;
            format!(in alloc;
                "collect {} {} {numbers} {}",
                asked.turns,
                asked.listen.text(),
                asked.interfaces
            )
        }
        Ok(Command::Send { to }) => format!(in alloc; "send {}", to.text()),
        Ok(Command::Relay { asked, routes }) => {
            let numbers = numbers_of(alloc, &asked.limits)?;
            format!(in alloc;
                "relay {} {} {numbers} {} {}",
                asked.turns,
                asked.listen.text(),
                asked.interfaces,
                routes.len()
            )
        }
        Ok(Command::Agent) => format!(in alloc; "agent"),
        Ok(Command::Trial { limits, interfaces }) => {
            let numbers = numbers_of(alloc, limits)?;
            format!(in alloc; "trial {numbers} {interfaces}")
        }
        Ok(
            Command::TrialMade {
                limits,
                interfaces,
                seed,
                packets,
            },
        ) => {
            let numbers = numbers_of(alloc, limits)?;
            format!(in alloc; "trial {numbers} {interfaces} made {seed} {packets}")
        }
    }
}

fn words_of(alloc: Global, texts: &[&str]) -> Result<Vec<String>, AllocError> {
    let mut words = Vec::new(alloc);
    for text in texts {
        words.push(String::from_str(alloc, text)?)?;
    }
    Ok(words)
}

// So many receivers are handed in.
const RECEIVERS: usize = 2;

// With ample memory each list of words has its reading.
#[test]
fn words_have_their_readings(rt: HostRuntime) -> Result<(), Fail> {
    let cases: [(&[&str], &str); 75] = [
        (&[], "usage"),
        (&[""], "usage"),
        (&["replay"], "replay 256 4096 64 1024 5000 false"),
        (&["replay", "extra"], "usage"),
        (&["replay", "--"], "usage"),
        (&["replay", "--zero"], "usage"),
        (
            &["replay", "--streams", "2"],
            "replay 2 4096 64 1024 5000 false",
        ),
        (
            &["replay", "--streams=2"],
            "replay 2 4096 64 1024 5000 false",
        ),
        (
            &[
                "replay",
                "--boot-slack=1073741824",
                "--sample-width",
                "1",
                "--datagram-width=8192",
                "--sources",
                "65536",
                "--streams=4096",
            ],
            "replay 4096 65536 8192 1 1073741824 false",
        ),
        (&["replay", "--streams", "0"], "usage"),
        (&["replay", "--streams=4097"], "usage"),
        (&["replay", "--sources", "65537"], "usage"),
        (&["replay", "--boot-slack", "99"], "usage"),
        (&["replay", "--streams=02"], "usage"),
        (&["replay", "--streams=+5"], "usage"),
        (&["replay", "--streams", "-5"], "usage"),
        (&["replay", "--streams="], "usage"),
        (&["replay", "--streams", ""], "usage"),
        (&["replay", "--streams=2", "--streams=2"], "usage"),
        (&["replay", "--streams=4294967298"], "usage"),
        (&["canon"], "canon"),
        (&["canon", "--migrate"], "canon two"),
        (&["canon", "--migrate=2"], "usage"),
        (&["canon", "--zero"], "usage"),
        (&["pcap"], "pcap"),
        (&["pcap", "--count"], "pcap counts"),
        (&["pcap", "--count", "--count"], "usage"),
        (&["pcap", "--count="], "usage"),
        (&["show"], "show"),
        (&["check"], "check"),
        (&["check", "--zero"], "check zero"),
        (&["check", "--zero="], "usage"),
        (&["check", "--zero=1"], "usage"),
        (&["check", "--zero", "--zero"], "usage"),
        (&["check", "--zero", "x"], "usage"),
        (&["check", "-z"], "usage"),
        (&["check", "--help"], "usage"),
        (&["check", "-h"], "usage"),
        (&["check", "--version"], "usage"),
        (&["check", "-V"], "usage"),
        (&["check", ""], "usage"),
        (&["--zero", "check"], "usage"),
        (&["Check"], "usage"),
        (&["agent"], "agent"),
        (&["agent", "extra"], "usage"),
        (&["trial"], "trial 256 4096 64 1024 5000 false"),
        (
            &["trial", "--interfaces", "--boot-slack=100"],
            "trial 256 4096 64 1024 100 true",
        ),
        (&["trial", "extra"], "usage"),
        (&["trial", "--interfaces=yes"], "usage"),
        (&["trial", "--boot-slack=99"], "usage"),
        (
            &["trial", "--made", "7", "--packets", "1000000"],
            "trial 256 4096 64 1024 5000 false made 7 1000000",
        ),
        (
            &[
                "trial",
                "--packets=10000000",
                "--interfaces",
                "--streams=2",
                "--made=18446744073709551615",
            ],
            "trial 2 4096 64 1024 5000 true made 18446744073709551615 10000000",
        ),
        (&["trial", "--made", "7"], "usage"),
        (&["trial", "--packets=5"], "usage"),
        (
            &["trial", "--made=18446744073709551616", "--packets=5"],
            "usage",
        ),
        (&["trial", "--made=7", "--packets=0"], "usage"),
        (&["trial", "--made=7", "--packets=10000001"], "usage"),
        (&["collect"], "usage"),
        (
            &["collect", "--turns", "5"],
            "collect 5 0.0.0.0:6343 256 4096 64 1024 5000 false",
        ),
        (
            &[
                "collect",
                "--interfaces",
                "--listen=[::1]:7000",
                "--turns=4294967295",
                "--streams=2",
            ],
            "collect 4294967295 [::1]:7000 2 4096 64 1024 5000 true",
        ),
        (&["collect", "--turns=0"], "usage"),
        (&["collect", "--turns=4294967296"], "usage"),
        (&["collect", "--turns=5", "--listen="], "usage"),
        (&["collect", "--turns=5", "--listen", "-1"], "usage"),
        (&["collect", "--turns=5", "--turns=5"], "usage"),
        (&["collect", "--turns=5", "--sources=0"], "usage"),
        (&["send"], "send 127.0.0.1:6343"),
        (&["send", "--to", "a.example:1"], "send a.example:1"),
        (&["send", "--to"], "usage"),
        (&["send", "--listen=a:1"], "usage"),
        (
            &["relay", "--turns", "5", "--routes", "10.0.0.1=a;any=b"],
            "relay 5 0.0.0.0:6343 256 4096 64 1024 5000 false 2",
        ),
        (&["relay", "--turns=5"], "usage"),
        (&["relay", "--routes=any=a"], "usage"),
        (&["relay", "--turns=5", "--routes=10.0.0.1"], "usage"),
        (
            &["relay", "--turns=5", "--routes=any=a;any=b;any=c"],
            "usage",
        ),
    ];
    for (texts, want) in cases {
        let words = words_of(rt.alloc(), texts)?;
        let read = told(rt.alloc(), &read_words(rt.alloc(), &words, RECEIVERS))?;
        assert_eq!(rt; read.as_str(), want, "{texts:?}");
    }
    Ok(())
}
