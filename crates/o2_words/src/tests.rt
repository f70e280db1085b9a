// The words of command lines, and where they leave their forms.
use crate::place::farthest;
use crate::{Command, Kind, Name, Part, WordFault, read_words};
use o2_debug::{PathQuery, Query};
use std::alloc::{AllocError, Global};
use std::test::Fail;

// The words of a line, parted by bars.
fn words_of(alloc: Global, line: &str) -> Result<Vec<String>, AllocError> {
    let mut words = Vec::new(alloc);
    for word in line.split('|') {
        words.push(String::from_str(alloc, word)?)?;
    }
    Ok(words)
}

// Why the words of the line are not served.
fn fault_of(alloc: Global, line: &str) -> Result<Option<WordFault>, AllocError> {
    let words = words_of(alloc, line)?;
    Ok(read_words(alloc, &words).err())
}

// Each line of words, and the place at which it leaves the command lines.
const USAGE: [(&str, u32); 65] = [
    ("", 0),
    ("Tunefs", 0),
    ("tunefs ", 0),
    ("o2image", 0),
    ("o2image|-r|disk|file", 0),
    ("-L|vol|disk", 0),
    ("mk|fs", 0),
    ("|tunefs|-L|vol|disk", 0),
    ("tunefs", 1),
    ("tunefs|", 1),
    ("tunefs|disk", 1),
    ("tunefs|-l|vol|disk", 1),
    ("tunefs|-LL|vol|disk", 1),
    ("tunefs|--label|vol|disk", 1),
    ("tunefs|vol|-L|disk", 1),
    ("tunefs|-U|disk", 1),
    ("tunefs|-L", 2),
    ("tunefs|-L|vol", 3),
    ("tunefs|-L|", 3),
    ("tunefs|-L|-N", 3),
    ("tunefs|-L|vol|", 3),
    ("tunefs|-L|vol|-disk", 3),
    ("tunefs|-L|vol|-", 3),
    ("tunefs|-L|vol|-|disk", 3),
    ("tunefs|-L|vol|disk|", 4),
    ("tunefs|-L|vol|disk|disk", 4),
    ("tunefs|-L|vol|disk|-N|4", 4),
    ("debugfs", 1),
    ("debugfs|disk", 1),
    ("debugfs|-R", 2),
    ("debugfs|-R|ls|disk", 2),
    ("debugfs|-R|ls /a/|disk", 2),
    ("debugfs|-R|ls ///|disk", 2),
    ("debugfs|-R|ls  /|disk", 2),
    ("debugfs|-R|cat a|disk", 2),
    ("debugfs|-R|stat|/|disk", 2),
    ("debugfs|-R|icheck 1234567890123456789|disk", 2),
    ("debugfs|-R|ls /a b", 3),
    ("debugfs|-R|cat //a|-d", 3),
    ("debugfs|-R|stats|disk|more", 4),
    ("debugfs|-R|stats /|disk", 2),
    ("debugfs|-R|refcount a|disk", 2),
    ("fsck", 1),
    ("fsck|disk", 1),
    ("fsck|n|disk", 1),
    ("fsck|-|disk", 1),
    ("fsck|-N|disk", 1),
    ("fsck|-r|disk", 1),
    ("fsck|-ny|disk", 1),
    ("fsck|-ff|disk", 1),
    ("fsck|-fny|disk", 1),
    ("fsck|-f|disk", 2),
    ("fsck|-n", 2),
    ("fsck|-n|-d", 2),
    ("fsck|-n|-n|disk", 2),
    ("fsck|-n|-y|disk", 2),
    ("fsck|-nf|-f|disk", 2),
    ("fsck|-f|-fn|disk", 2),
    ("fsck|-f|-f|-n|disk", 2),
    ("fsck|-n|disk|more", 3),
    ("fsck|-f|-n", 3),
    ("fsck|-f|-n|-y|disk", 3),
    ("fsck|-y|-f|-f|disk", 3),
    ("fsck|-yf|disk|-n", 3),
    ("fsck|-y|-f|disk|disk", 4),
];

// Lines that a later version serves.
const LATER: [&str; 14] = [
    "mkfs",
    "mkfs|-b|4096|disk",
    "fsck|-y|disk",
    "fsck|-fy|disk",
    "fsck|-yf|disk",
    "fsck|-f|-y|disk",
    "fsck|-y|-f|disk",
    "debugfs|-R|logdump 0|disk",
    "debugfs|-R|icheck 123456789012345678|disk",
    "sample|1000|disk",
    "tunefs|-N",
    "tunefs|-N|4|disk",
    "tunefs|-J|size=8M|disk",
    "tunefs|-S|disk",
];

#[test]
fn refuses_words(rt: HostRuntime) -> Result<(), Fail> {
    let alloc = rt.alloc();
    let none: Vec<String> = Vec::new(alloc);
    assert_eq!(rt;
        read_words(alloc, &none).err(),
        Some(WordFault::Usage { place: 0 })
    );
    for (line, place) in USAGE {
        assert_eq!(rt;
            fault_of(alloc, line)?,
            Some(WordFault::Usage { place }),
            "{line}"
        );
    }
    for line in LATER {
        assert_eq!(rt; fault_of(alloc, line)?, Some(WordFault::Later), "{line}");
    }
    Ok(())
}

// What a query asks for, as text.
fn query_text(alloc: Global, query: Query) -> Result<String, AllocError> {
    match query {
        Query::Stats => String::from_str(alloc, "stats"),
        Query::SlotMap => String::from_str(alloc, "slotmap"),
        Query::At(PathQuery::Ls { path }) => format!(in alloc; "ls {path}"),
        Query::At(PathQuery::Stat { path }) => format!(in alloc; "stat {path}"),
        Query::At(PathQuery::Cat { path }) => format!(in alloc; "cat {path}"),
        Query::At(PathQuery::Refcount { path }) => format!(in alloc; "refcount {path}"),
    }
}

#[test]
fn reads_words(rt: HostRuntime) -> Result<(), Fail> {
    let alloc = rt.alloc();
    let words = words_of(alloc, "tunefs|-L|-N|a disk")?;
    match read_words(alloc, &words) {
        Ok(Command::Label { label, device }) => {
            assert_eq!(rt; label.as_slice(), "-N".as_bytes());
            assert_eq!(rt; device, 3);
        }
        Ok(
            Command::Debug {
                query: _query,
                device: _device,
            },
        ) => assert!(rt; false),
        Ok(Command::Check { device: _device }) => assert!(rt; false),
        Err(_fault) => assert!(rt; false),
    }
    for asked in [
        "ls /",
        "stat /a b/c",
        "cat //a",
        "refcount /a",
        "stats",
        "slotmap",
    ] {
        let line = format!(in alloc; "debugfs|-R|{asked}|disk")?;
        match read_words(alloc, &words_of(alloc, &line)?) {
            Ok(Command::Debug { query, device }) => {
                let text = query_text(alloc, query)?;
                assert_eq!(rt; text.as_str(), asked);
                assert_eq!(rt; device, 3);
            }
            Ok(
                Command::Label {
                    label: _label,
                    device: _device,
                },
            ) => assert!(rt; false),
            Ok(Command::Check { device: _device }) => assert!(rt; false),
            Err(_fault) => assert!(rt; false),
        }
    }
    Ok(())
}

// Lines that check a volume, and the place of its device.
const CHECKS: [(&str, u32); 5] = [
    ("fsck|-n|disk", 2),
    ("fsck|-fn|disk", 2),
    ("fsck|-nf|disk", 2),
    ("fsck|-f|-n|disk", 3),
    ("fsck|-n|-f|disk", 3),
];

#[test]
fn reads_checks(rt: HostRuntime) -> Result<(), Fail> {
    let alloc = rt.alloc();
    for (line, place) in CHECKS {
        match read_words(alloc, &words_of(alloc, line)?) {
            Ok(Command::Check { device }) => assert_eq!(rt; device, place, "{line}"),
            Ok(
                Command::Label {
                    label: _label,
                    device: _device,
                },
            ) => assert!(rt; false),
            Ok(
                Command::Debug {
                    query: _query,
                    device: _device,
                },
            ) => assert!(rt; false),
            Err(_fault) => assert!(rt; false),
        }
    }
    Ok(())
}

// A tool whose options come in any order, as one to come will have them.
const MADE_FORM: [Part; 7] = [
    Part::One(Kind::Fixed(Name::Mkfs)),
    Part::Optional(Name::Slots, Kind::Number),
    Part::Optional(Name::Journals, Kind::Text),
    Part::Optional(Name::Label, Kind::Text),
    Part::Flag(Name::Size),
    Part::One(Kind::Device),
    Part::Perhaps(Kind::Number),
];

// Each line of words, and the place up to which it is in order. A whole line has all its words there.
const MADE: [(&str, usize); 22] = [
    ("mkfs", 1),
    ("mkfs|disk", 2),
    ("mkfs|disk|1000", 3),
    ("mkfs|disk|many", 2),
    ("mkfs|disk|1000|1000", 3),
    ("mkfs|-N|4|disk", 4),
    ("mkfs|-N|disk", 2),
    ("mkfs|-N|4", 3),
    ("mkfs|-N", 2),
    ("mkfs|-L|-N|-N|4|disk|9", 7),
    ("mkfs|-N|4|-L|-N|disk|9", 7),
    ("mkfs|-S|-J|size=8M|-L|vol|-N|4|disk", 9),
    ("mkfs|-N|4|-L|vol|-J|size=8M|-S|disk", 9),
    ("mkfs|-L|vol|-S|-N|4|-J|size=8M|disk", 9),
    ("mkfs|-N|4|-N|4|disk", 3),
    ("mkfs|-L|vol|-N|4|-L|vol|disk", 5),
    ("mkfs|-S|-S|disk", 2),
    ("mkfs|-S|-N|-S|disk", 3),
    ("mkfs|-R|disk", 1),
    ("mkfs|disk|-N|4", 2),
    ("mkfs|-N|4|disk|-S", 4),
    ("fsck|disk", 0),
];

#[test]
fn takes_options_in_any_order(rt: HostRuntime) -> Result<(), Fail> {
    let alloc = rt.alloc();
    for (line, place) in MADE {
        let words = words_of(alloc, line)?;
        assert_eq!(rt; farthest(alloc, &[&MADE_FORM], &words)?, place, "{line}");
    }
    Ok(())
}
