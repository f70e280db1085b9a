// Text and lines put on a sink in memory.
use crate::{Cause, Class, put_line, put_lines, put_text};
use o2_dir::PathText;
use o2_disk::MemSink;
use o2_model::{Check, Oddity};
use o2_view::{Bytes, Which};
use std::alloc::Global;
use std::test::Fail;

#[test]
fn puts_text(rt: HostRuntime) {
    let mut out = MemSink::new(rt.alloc());
    out.fail_at(1);
    assert!(rt; put_text(&mut out, b"a text").is_ok());
    assert_eq!(rt; out.bytes(), b"a text".as_slice());
    assert!(rt; put_text(&mut out, b" more").is_err());
    assert_eq!(rt; out.bytes(), b"a text".as_slice());
}

#[test]
fn puts_lines(rt: HostRuntime) -> Result<(), Fail> {
    let alloc = rt.alloc();
    let mut out = MemSink::new(alloc);
    let lines = [
        Bytes::from(Vec::from_slice(alloc, b"one\n")?),
        Bytes::from(Vec::from_slice(alloc, b"two\n")?),
    ];
    assert!(rt; put_lines(&mut out, &lines).is_ok());
    assert_eq!(rt; out.bytes(), b"one\ntwo\n".as_slice());
    Ok(())
}

fn path(alloc: Global) -> Result<PathText, Fail> {
    Ok(PathText::from(String::from_str(alloc, "/a")?))
}

#[test]
fn ends_by_each_cause(rt: HostRuntime) -> Result<(), Fail> {
    let alloc = rt.alloc();
    let what = Oddity::Quota;
    let check = Check::DirBlock;
    let which = Which::Label;
    // the causes, their classes, their statuses and the lines that they print
    for (cause, class, status, line) in [
        (Cause::Fine, Class::Done, 0, ""),
        (Cause::Uncorrected { check, block: 9 }, Class::Done, 4, ""),
        (Cause::OutputFault, Class::Done, 65, ""),
        (
            Cause::Usage { place: 3 },
            Class::Refusal,
            16,
            "usage: word 3\n",
        ),
        (Cause::Later, Class::Refusal, 1, "tool: not built yet\n"),
        (
            Cause::NotOcfs2,
            Class::Refusal,
            1,
            "tool: not an OCFS2 volume\n",
        ),
        (
            Cause::Unsupported { what, block: 2 },
            Class::Refusal,
            1,
            "tool: unsupported: quota block 2\n",
        ),
        (
            Cause::Absent { path: path(alloc)? },
            Class::Refusal,
            1,
            "debugfs: no such path: /a\n",
        ),
        (
            Cause::WrongKind { path: path(alloc)? },
            Class::Refusal,
            1,
            "debugfs: wrong kind: /a\n",
        ),
        (
            Cause::Bad { check, block: 9 },
            Class::Refusal,
            1,
            "debugfs: damaged: DIR_BLOCK block 9\n",
        ),
        (
            Cause::Range { which, value: 65 },
            Class::Refusal,
            1,
            "tool: out of range: label 65\n",
        ),
        (Cause::DeviceFault, Class::Fault, 8, "tool: device fault\n"),
        (Cause::NoMemory, Class::Fault, 64, ""),
    ] {
        let mut out = MemSink::new(alloc);
        assert_eq!(rt; cause.class(), class, "{line}");
        assert_eq!(rt;
            put_line(alloc, "tool", cause, &mut out).status("tool"),
            status,
            "{line}"
        );
        assert_eq!(rt; out.bytes(), line.as_bytes(), "{line}");
    }
    Ok(())
}

// The status by which fsck refuses a volume is its own.
#[test]
fn fsck_refuses_by_its_own_status(rt: HostRuntime) {
    let unsupported = Cause::Unsupported {
        what: Oddity::Quota,
        block: 2,
    };
    assert_eq!(rt; Cause::NotOcfs2.status("fsck"), 4);
    assert_eq!(rt; unsupported.status("fsck"), 4);
    assert_eq!(rt; unsupported.status("tunefs"), 1);
    assert_eq!(rt; Cause::Later.status("fsck"), 1);
}
