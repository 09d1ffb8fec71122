// Runs the readers and writers of primitives on the examples of docs/RULES.md and on the varints at the ends of each length, and tells what they answer.
// expected.py has what it must write, from the rules and from Python's own arithmetic.
#![tactic(auto)]

use primitives::{Field, Read, Refusal, Span};
use primitives_calls::{read, write};
use primitives_put::Written;
use std::io;
use tagged_fields::{reading, writing};

fn hex(rt: &impl Print, s: &[u8]) -> io::Result<()> {
    for b in s {
        print!(rt; " {b:02x}")?;
    }
    Ok(())
}

fn refused(rt: &impl Print, e: Refusal) -> io::Result<()> {
    print!(rt; "{} at {}, need {}", e.number, e.place, e.need)
}

// ---- what was read, and what was written

// A value that a reader takes, as it is told.
trait Shown {
    fn show(&self, rt: &impl Print) -> io::Result<()>;
}

impl Shown for u64 {
    fn show(&self, rt: &impl Print) -> io::Result<()> {
        print!(rt; "{self}")
    }
}

// A signed number as its eight bytes.
impl Shown for i64 {
    fn show(&self, rt: &impl Print) -> io::Result<()> {
        let mut out = [0u8; 8];
        let r = write::int64(&mut out, *self);
        wrote(rt, &out, r)
    }
}

impl Shown for bool {
    fn show(&self, rt: &impl Print) -> io::Result<()> {
        print!(rt; "{}", *self as u64)
    }
}

// A count, or null.
impl Shown for Option<u64> {
    fn show(&self, rt: &impl Print) -> io::Result<()> {
        match self {
            Some(n) => print!(rt; "{n}"),
            None => print!(rt; "null"),
        }
    }
}

impl Shown for Span {
    fn show(&self, rt: &impl Print) -> io::Result<()> {
        print!(rt; "{} from {}", self.len, self.start)
    }
}

impl Shown for Field {
    fn show(&self, rt: &impl Print) -> io::Result<()> {
        match self {
            Field::Absent => print!(rt; "absent"),
            Field::Null => print!(rt; "null"),
            Field::Present(part) => part.show(rt),
        }
    }
}

fn told<T: Shown + Drop>(rt: &impl Print, r: Read<T>) -> io::Result<()> {
    match r {
        Ok(taken) => {
            taken.value.show(rt)?;
            println!(rt; ", used {}", taken.next)
        }
        Err(e) => {
            refused(rt, e)?;
            println!(rt)
        }
    }
}

fn wrote(rt: &impl Print, out: &[u8], r: Written) -> io::Result<()> {
    match r {
        Ok(n) => hex(rt, primitives::shown::part(out, 0, n)),
        Err(e) => refused(rt, e),
    }
}

fn wrote_line(rt: &impl Print, out: &[u8], r: Written) -> io::Result<()> {
    wrote(rt, out, r)?;
    println!(rt)
}

// ---- varints at the ends of their lengths, written and read again

fn unsigned_varints(rt: &impl Print) -> io::Result<()> {
    let ends = [
        0u64,
        127,
        128,
        16383,
        16384,
        2097151,
        2097152,
        268435455,
        268435456,
        34359738367,
        34359738368,
        4398046511103,
        4398046511104,
        562949953421311,
        562949953421312,
        72057594037927935,
        72057594037927936,
        9223372036854775807,
        9223372036854775808,
        18446744073709551615,
    ];
    for n in ends {
        let mut out = [0u8; 10];
        let r = write::unsigned_varint(&mut out, n);
        wrote_line(rt, &out, r)?;
        told(rt, read::unsigned_varint(&out))?;
    }
    Ok(())
}

fn varints(rt: &impl Print) -> io::Result<()> {
    let ends = [
        -2147483649i64,
        -2147483648,
        -8193,
        -8192,
        -65,
        -64,
        -1,
        0,
        63,
        64,
        8191,
        8192,
        2147483647,
        2147483648,
    ];
    for n in ends {
        let mut out = [0u8; 10];
        let r = write::varint(&mut out, n);
        wrote_line(rt, &out, r)?;
        told(rt, read::varint(&out))?;
    }
    Ok(())
}

fn varlongs(rt: &impl Print) -> io::Result<()> {
    let ends = [
        -9223372036854775808i64,
        -4611686018427387905,
        -4611686018427387904,
        -1,
        0,
        4611686018427387903,
        4611686018427387904,
        9223372036854775807,
    ];
    for n in ends {
        let mut out = [0u8; 10];
        let r = write::varlong(&mut out, n);
        wrote_line(rt, &out, r)?;
        told(rt, read::varlong(&out))?;
    }
    Ok(())
}

// ---- the examples of the rules

fn texts(rt: &impl Print) -> io::Result<()> {
    told(rt, read::string(&[0, 4, 0xF4, 0x8F, 0xBF, 0xBF]))?;
    told(rt, read::string(&[0, 4, 0xF4, 0x90, 0x80, 0x80]))?;
    told(rt, read::string(&[0, 2, 0xC0, 0x80]))?;
    told(rt, read::string(&[0, 3, 0xED, 0xA0, 0x80]))
}

fn written(rt: &impl Print, text: &[u8]) -> io::Result<()> {
    let mut out = [0u8; 6];
    let r = write::string(&mut out, text);
    wrote_line(rt, &out, r)
}

fn written_texts(rt: &impl Print) -> io::Result<()> {
    written(rt, &[0xF4, 0x8F, 0xBF, 0xBF])?;
    written(rt, &[0xF4, 0x90, 0x80, 0x80])?;
    written(rt, &[0xC0, 0x80])?;
    written(rt, &[0xED, 0xA0, 0x80])?;
    written(rt, b"abcde")
}

fn size(rt: &impl Print, r: Written) -> io::Result<()> {
    match r {
        Ok(n) => println!(rt; "{n} bytes"),
        Err(e) => {
            refused(rt, e)?;
            println!(rt)
        }
    }
}

fn long_texts(rt: &impl Print) -> io::Result<()> {
    let text = [b'a'; 32768];
    let mut out = [0u8; 65536];
    size(rt, write::string(&mut out, &text[..32767]))?;
    told(rt, read::string(&out))?;
    size(rt, write::string(&mut out, &text))?;
    size(rt, write::nullable_string(&mut out, Some(&text)))?;
    size(rt, write::compact_string(&mut out, &text))
}

fn lengths(rt: &impl Print) -> io::Result<()> {
    told(rt, read::nullable_string(&[0xFF, 0xFF]))?;
    told(rt, read::nullable_string(&[0xFF, 0xFE]))?;
    told(rt, read::compact_string(&[0]))?;
    told(rt, read::compact_string(&[1]))?;
    told(rt, read::compact_nullable_string(&[0]))?;
    told(rt, read::compact_bytes(&[0]))?;
    told(rt, read::records(&[0xFF, 0xFF, 0xFF, 0xFF]))
}

fn cells(rt: &impl Print, table: &[u64]) -> io::Result<()> {
    for c in table {
        print!(rt; " {c}")?;
    }
    println!(rt)
}

// The table begins as seven sevens: two rows, and a cell that is no row.
fn tag_rows(rt: &impl Print, msg: &[u8]) -> io::Result<()> {
    let mut table = [7u64; 7];
    told(rt, reading::tagged_fields(msg, &mut table))?;
    cells(rt, &table)
}

fn tag_buffers(rt: &impl Print) -> io::Result<()> {
    tag_rows(rt, &[0])?;
    tag_rows(rt, &[2, 5, 0, 4, 2, 0xAA, 0xBB, 0xCC])?;
    tag_rows(rt, &[1, 5, 2, 0xAA])?;
    tag_rows(rt, &[3, 1, 0, 2, 0, 3, 0])?;
    tag_rows(rt, &[2, 1, 0])?;
    tag_rows(rt, &[])
}

// Two bytes are lent, and there is room for seven.
fn tags_put(rt: &impl Print, count: u64, table: &[u64]) -> io::Result<()> {
    let mut out = [0u8; 7];
    let r = writing::tagged_fields(&mut out, &[0xAA, 0xBB], count, table);
    wrote_line(rt, &out, r)
}

fn written_tags(rt: &impl Print) -> io::Result<()> {
    tags_put(rt, 2, &[5, 0, 0, 4, 0, 2])?;
    tags_put(rt, 18446744073709551615, &[])?;
    tags_put(rt, 1, &[5, 0, 0, 4, 0, 2])?;
    tags_put(rt, 1, &[5, 1, 2])?;
    tags_put(rt, 2, &[5, 0, 1, 4, 0, 2])
}

fn no_numbers(rt: &impl Print, msg: &[u8]) -> io::Result<()> {
    told(rt, read::int8(msg))?;
    told(rt, read::int16(msg))?;
    told(rt, read::int32(msg))?;
    told(rt, read::int64(msg))?;
    told(rt, read::boolean(msg))?;
    told(rt, read::unsigned_varint(msg))?;
    told(rt, read::varint(msg))?;
    told(rt, read::varlong(msg))
}

fn no_fields(rt: &impl Print, msg: &[u8]) -> io::Result<()> {
    told(rt, read::array_count(msg))?;
    told(rt, read::compact_array_count(msg))?;
    told(rt, read::bytes(msg))?;
    told(rt, read::nullable_bytes(msg))?;
    told(rt, read::compact_bytes(msg))?;
    told(rt, read::records(msg))?;
    told(rt, read::string(msg))?;
    told(rt, read::nullable_string(msg))?;
    told(rt, read::compact_string(msg))?;
    told(rt, read::compact_nullable_string(msg))
}

fn main(rt: HostRuntime) -> io::Result<()> {
    unsigned_varints(&rt)?;
    varints(&rt)?;
    varlongs(&rt)?;
    texts(&rt)?;
    written_texts(&rt)?;
    long_texts(&rt)?;
    lengths(&rt)?;
    tag_buffers(&rt)?;
    written_tags(&rt)?;
    no_numbers(&rt, &[])?;
    no_fields(&rt, &[])
}
