// The feared night: a broker was swapped, and its ApiVersions answer has another version's layout.
// Bodies of every layout, each read whole at every version, and then as the Rust reads it, to the end of what it wants: there some parse as a broker that offers nothing.
// expected.py has what it must write, from the rules, by a reader of its own.
#![tactic(auto)]

ghost use Rattle.std.specs.Prelude.{◌≡◌, ◌≤◌};
ghost use Rattle.api_versions_response.specs.Answers.{accepting};

use api_versions_response::ResponseBody;
use body_writing::ranges::part;
use primitives::{MINUS_ONE, Read};
use std::{fmt, io};

fn hex(rt: &impl Print, s: &[u8]) -> io::Result<()> {
    for b in s {
        print!(rt; " {b:02x}")?;
    }
    println!(rt)
}

// A cell that a version may lack, as the signed number that it stands for.
#[derive(Clone, Copy)]
struct Maybe(Option<u64>);

impl fmt::Display for Maybe {
    fn fmt<W: fmt::Write>(&self, f: &mut fmt::Formatter<W>) -> fmt::Result {
        match self.0 {
            Some(c) => write!(f, "{}", c.cast_signed()),
            None => write!(f, "absent"),
        }
    }
}

// The rows that were filled: key, minimum, maximum and number of tags.
fn rows(rt: &impl Print, items: &[u64], filled: u64) -> io::Result<()> {
    for row in items.chunks_exact(4).take(filled as usize) {
        println!(rt;
            "    key {}: {} to {}, tags {}",
            row[0].cast_signed(),
            row[1].cast_signed(),
            row[2].cast_signed(),
            row[3].cast_signed()
        )?;
    }
    Ok(())
}

fn offered(rt: &impl Print, items: &[u64]) -> io::Result<()> {
    for [key, version, most] in api_versions_agreement::agree(items) {
        println!(rt; "    agreed on key {key}: {version} of {most}")?;
    }
    Ok(())
}

// What a read answered; where it accepted, its items and what is agreed on from them.
fn told(rt: &impl Print, r: Read<ResponseBody>, items: &[u64]) -> io::Result<()> {
    match r {
        Ok(taken) => {
            let body = taken.value;
            println!(rt;
                "accepted, used {}, error {}, items {}, throttle {}, tags {}",
                taken.next,
                body.error.cast_signed(),
                body.items.cast_signed(),
                Maybe(body.throttle),
                body.tags.cast_signed()
            )?;
            rows(rt, items, body.items)?;
            offered(rt, items)
        }
        Err(e) => println!(rt; "refused, {} at {}", e.number, e.place),
    }
}

fn accepts(r: Read<ResponseBody>) -> u64
    ensures { result ≡ accepting r }
{
    r.is_ok() as u64
}

// The feared night cannot come: of the three layouts at most one accepts the body, and this is proved.
fn layouts(msg: &[u8], items: &mut [u64], tags: &mut [u64]) -> u64
    ensures { result ≤ 1 }
{
    let bare = accepts(api_versions_response::read_whole(msg, 0, items, tags));
    let throttled = accepts(api_versions_response::read_whole(msg, 1, items, tags));
    let flexible = accepts(api_versions_response::read_whole(msg, 3, items, tags));
    bare + throttled + flexible
}

// The tables begin as rows of no key.
fn body(rt: &impl Print, msg: &[u8]) -> io::Result<()> {
    hex(rt, msg)?;
    let accepting = layouts(msg, &mut [0; 12], &mut [0; 9]);
    println!(rt; "  layouts that accept it: {accepting}")?;
    for version in 0..4 {
        let mut items = [MINUS_ONE; 12];
        let r = api_versions_response::read_whole(msg, version, &mut items, &mut [0; 9]);
        print!(rt; "  whole at {version}: ")?;
        told(rt, r, &items)?;
    }
    for version in 0..4 {
        let mut items = [MINUS_ONE; 12];
        let r = api_versions_response::read(msg, version, &mut items, &mut [0; 9]);
        print!(rt; "  prefix at {version}: ")?;
        told(rt, r, &items)?;
    }
    Ok(())
}

// Three items, the second with a tag, a throttle time and an own tag: fields that the version lacks are dropped.
fn written(rt: &impl Print, version: i64) -> io::Result<()> {
    let mut out = [0u8; 40];
    let fields = ResponseBody {
        error: 0,
        items: 3,
        throttle: Some(100),
        tags: 1,
    };
    let r = api_versions_response::write(
        &mut out,
        version,
        b"\xaa",
        fields,
        &[18, 0, 3, 0, 3, 0, 9, 1, 1, 4, 12, 0],
        &[7, 0, 1, 9, 1, 0],
    );
    print!(rt; "Written at {version}:")?;
    match r {
        Ok(n) => body(rt, part(&out, 0, n as u64)),
        Err(e) => println!(rt; " refused, {}", e.number),
    }
}

const BODIES: [(&str, &[u8]); 9] = [
    (
        "E9, version 0, one row:",
        b"\x00\x00\x00\x00\x00\x01\x00\x12\x00\x00\x00\x03",
    ),
    (
        "E10, version 1, the same row, throttle 0:",
        b"\x00\x00\x00\x00\x00\x01\x00\x12\x00\x00\x00\x03\x00\x00\x00\x00",
    ),
    (
        "E11, version 3, the same row:",
        b"\x00\x00\x02\x00\x12\x00\x00\x00\x03\x00\x00\x00\x00\x00\x00",
    ),
    (
        "E12, version 1, no items, throttle 66816:",
        b"\x00\x00\x00\x00\x00\x00\x00\x01\x05\x00",
    ),
    (
        "Version 0, error 35, no items:",
        b"\x00\x23\x00\x00\x00\x00",
    ),
    (
        "Version 2, three rows, throttle 100:",
        b"\x00\x00\x00\x00\x00\x03\x00\x12\x00\x00\x00\x03\x00\x03\x00\x00\x00\x09\x00\x01\x00\x04\x00\x0c\x00\x00\x00\x64",
    ),
    (
        "Version 3, three rows, one with a tag, throttle 100, an own tag:",
        b"\x00\x00\x04\x00\x12\x00\x00\x00\x03\x00\x00\x03\x00\x00\x00\x09\x01\x07\x01\xaa\x00\x01\x00\x04\x00\x0c\x00\x00\x00\x00\x64\x01\x09\x00",
    ),
    (
        "Version 3, null items:",
        b"\x00\x00\x00\x00\x00\x00\x00\x00",
    ),
    ("Nothing at all:", b""),
];

fn main(rt: HostRuntime) -> io::Result<()> {
    for (name, msg) in BODIES {
        print!(rt; "{name}")?;
        body(&rt, msg)?;
    }
    for version in 0..4 {
        written(&rt, version)?;
    }
    Ok(())
}
