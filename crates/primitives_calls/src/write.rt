// Every primitive of primitives.rs written by itself: numbers, counts, data and texts, in one module, since a caller asks for them by name and all are answered alike.
// Each call checks what it is given, and writes it, data and texts after their length, at the front of the output that it is lent.
ghost use Rattle.std.specs.Prelude.{◌≡◌, ltb, ◌^◌, ◌≤◌, cond};
ghost use Rattle.layout.specs.Primitives.{bytes, cell_of, compact, empty, fixed, flag_bytes, holds, integer_bytes, kept, limit, never, null_bytes, unsigned_bytes, w16, w32, w64, w8, zigzag, zigzag_bytes};
ghost use Rattle.layout.specs.Write.{basic_fault, too_long, unless, write_basic};
ghost use Rattle.layout.specs.Answers.{write_alone};
ghost use Rattle.primitives_put.specs.Answers.{count_bytes, count_fault, length_fault, null_or, replied, within};
ghost use Rattle.layout.specs.Rows.{blob, text};
ghost use Rattle.primitives_put.specs.Put.{behind_length, size_of};

use primitives::{MOST, NOT_TEXT, TOO_LONG, TOO_WIDE, at};
use primitives_put::replies::{answer, cell, fits};
use primitives_put::{Form, Written};

// 0, -1, 1, -2, .. are carried as 0, 1, 2, 3, ..
fn zigzagged(value: i64) -> u64
    ensures { result ≡ zigzag value }
{
    let c = cell(value);
    if c < 9223372036854775808 {
        c * 2
    } else {
        (18446744073709551615 - c) * 2 + 1
    }
}

// A cell in its lowest k bytes, where it holds a number from -half to half - 1.
fn integer(out: &mut [u8], c: u64, k: usize, half: u64) -> Written
    requires { k ≤ 8 }
    ensures { replied result out.new ≡ write_alone (unless (within half c) 11) (bytes k c) out.old }
{
    if fits(c, half) {
        return answer(out.len(), primitives_put::lowest(out, c, k));
    }
    Err(at(TOO_WIDE, 0))
}

// A function for each width, as the kinds of the C interface name them; `integer` is what they share.
pub fn int8(out: &mut [u8], value: i64) -> Written
    ensures { replied result out.new ≡ write_alone (unless (holds w8 (cell_of value)) 11) (integer_bytes w8 value) out.old }
{
    integer(out, cell(value), 1, 128)
}

pub fn int16(out: &mut [u8], value: i64) -> Written
    ensures { replied result out.new ≡ write_alone (unless (holds w16 (cell_of value)) 11) (integer_bytes w16 value) out.old }
{
    integer(out, cell(value), 2, 32768)
}

pub fn int32(out: &mut [u8], value: i64) -> Written
    ensures { replied result out.new ≡ write_alone (unless (holds w32 (cell_of value)) 11) (integer_bytes w32 value) out.old }
{
    integer(out, cell(value), 4, 2147483648)
}

pub fn boolean(out: &mut [u8], value: bool) -> Written
    ensures { replied result out.new ≡ write_alone 0 (flag_bytes value) out.old }
{
    answer(out.len(), primitives_put::boolean(out, value))
}

pub fn unsigned_varint(out: &mut [u8], n: u64) -> Written
    ensures { replied result out.new ≡ write_alone 0 (unsigned_bytes n) out.old }
{
    answer(out.len(), primitives_put::unsigned_varint(out, n))
}

pub fn varint(out: &mut [u8], value: i64) -> Written
    ensures { replied result out.new ≡ write_alone (unless (ltb (zigzag value) (2 ^ 32)) 11) (zigzag_bytes value) out.old }
{
    let n = zigzagged(value);
    if n < 4294967296 {
        return unsigned_varint(out, n);
    }
    Err(at(TOO_WIDE, 0))
}

// ---- all 64 bits

pub fn int64(out: &mut [u8], value: i64) -> Written
    ensures { replied result out.new ≡ write_alone (unless (holds w64 (cell_of value)) 11) (integer_bytes w64 value) out.old }
{
    integer(out, cell(value), 8, 9223372036854775808)
}

pub fn varlong(out: &mut [u8], value: i64) -> Written
    ensures { replied result out.new ≡ write_alone 0 (zigzag_bytes value) out.old }
{
    unsigned_varint(out, zigzagged(value))
}

// Counts from here on cannot be carried.
fn limit(form: Form) -> u64
    ensures { result ≡ limit (size_of form) }
{
    match form {
        Form::Int16 => 32768,
        Form::Int32 => 2147483648,
        Form::Compact => 18446744073709551615,
    }
}

// Is a value of n bytes over what two bytes of length carry? What another form cannot carry is over MOST.
fn too_long(form: Form, n: usize) -> bool
    ensures { cond result 11 0 ≡ too_long (size_of form) n }
{
    match form {
        Form::Int16 => 32768 <= n,
        Form::Int32 => false,
        Form::Compact => false,
    }
}

// Null in the place of a length.
fn null_length(out: &mut [u8], form: Form) -> Written
    ensures { replied result out.new ≡ write_alone 0 (null_bytes (size_of form)) out.old }
{
    answer(out.len(), primitives_put::null(out, form))
}

// A count, or null. An array of as many items as no count can carry is over MOST.
fn count(out: &mut [u8], form: Form, n: Option<u64>) -> Written
    ensures { replied result out.new ≡ write_alone (count_fault (size_of form) n) (count_bytes (size_of form) n) out.old }
{
    let Some(n) = n else {
        return null_length(out, form);
    };
    if n < limit(form) {
        return answer(out.len(), primitives_put::length(out, form, n));
    }
    Err(at(TOO_LONG, 0))
}

// A text or data that is good, behind its length. Its size is known before anything is stored.
fn carried(out: &mut [u8], form: Form, value: &[u8]) -> Written
    ensures { replied result out.new ≡ write_alone 0 (behind_length (size_of form) value.now) out.old }
{
    let all = primitives_put::length_size(form, value.len() as u64) + value.len();
    if MOST < all {
        return Err(at(TOO_LONG, 0));
    }
    answer(out.len(), primitives_put::sized(out, form, value))
}

// A text or data behind its length; `good` says that a text is UTF-8, and data always are.
fn sized(out: &mut [u8], form: Form, value: &[u8], good: bool) -> Written
    ensures { replied result out.new ≡ write_alone (length_fault (size_of form) value.now (unless good 7)) (behind_length (size_of form) value.now) out.old }
{
    if too_long(form, value.len()) {
        return Err(at(TOO_WIDE, 0));
    }
    if good {
        return carried(out, form, value);
    }
    Err(at(NOT_TEXT, 0))
}

// STRING: the length as an Int16, and the text.
pub fn string(out: &mut [u8], value: &[u8]) -> Written
    ensures { replied result out.new ≡ write_alone (basic_fault (text (fixed w16 never)) value.now) (write_basic (text (fixed w16 never)) value.now) out.old }
{
    sized(out, Form::Int16, value, utf8::is_text(value))
}

// NULLABLE_STRING: the same, and -1 for null.
pub fn nullable_string(out: &mut [u8], value: Option<&[u8]>) -> Written
    ensures { replied result out.new ≡ write_alone (basic_fault (text (fixed w16 kept)) (null_or value.entry)) (write_basic (text (fixed w16 kept)) (null_or value.entry)) out.old }
{
    match value {
        Some(value) => sized(out, Form::Int16, value, utf8::is_text(value)),
        None => null_length(out, Form::Int16),
    }
}

// COMPACT_STRING: one more than the length as an unsigned varint, and the text.
pub fn compact_string(out: &mut [u8], value: &[u8]) -> Written
    ensures { replied result out.new ≡ write_alone (basic_fault (text (compact never)) value.now) (write_basic (text (compact never)) value.now) out.old }
{
    sized(out, Form::Compact, value, utf8::is_text(value))
}

// COMPACT_NULLABLE_STRING: the same, and 0 for null.
pub fn compact_nullable_string(out: &mut [u8], value: Option<&[u8]>) -> Written
    ensures { replied result out.new ≡ write_alone (basic_fault (text (compact kept)) (null_or value.entry)) (write_basic (text (compact kept)) (null_or value.entry)) out.old }
{
    match value {
        Some(value) => sized(out, Form::Compact, value, utf8::is_text(value)),
        None => null_length(out, Form::Compact),
    }
}

// BYTES: the length as an Int32, and the data.
pub fn bytes(out: &mut [u8], value: &[u8]) -> Written
    ensures { replied result out.new ≡ write_alone (basic_fault (blob (fixed w32 never)) value.now) (write_basic (blob (fixed w32 never)) value.now) out.old }
{
    sized(out, Form::Int32, value, true)
}

// NULLABLE_BYTES: the same, and -1 for null.
pub fn nullable_bytes(out: &mut [u8], value: Option<&[u8]>) -> Written
    ensures { replied result out.new ≡ write_alone (basic_fault (blob (fixed w32 kept)) (null_or value.entry)) (write_basic (blob (fixed w32 kept)) (null_or value.entry)) out.old }
{
    match value {
        Some(value) => sized(out, Form::Int32, value, true),
        None => null_length(out, Form::Int32),
    }
}

// COMPACT_BYTES: one more than the length as an unsigned varint, and the data.
pub fn compact_bytes(out: &mut [u8], value: &[u8]) -> Written
    ensures { replied result out.new ≡ write_alone (basic_fault (blob (compact never)) value.now) (write_basic (blob (compact never)) value.now) out.old }
{
    sized(out, Form::Compact, value, true)
}

// RECORDS: as BYTES. A null reads as empty records, and none is written.
pub fn records(out: &mut [u8], value: &[u8]) -> Written
    ensures { replied result out.new ≡ write_alone (basic_fault (blob (fixed w32 empty)) value.now) (write_basic (blob (fixed w32 empty)) value.now) out.old }
{
    sized(out, Form::Int32, value, true)
}

// The count of an ARRAY: an Int32, and -1 for null.
pub fn array_count(out: &mut [u8], n: Option<u64>) -> Written
    ensures { replied result out.new ≡ write_alone (count_fault (fixed w32 kept) n) (count_bytes (fixed w32 kept) n) out.old }
{
    count(out, Form::Int32, n)
}

// The count of a COMPACT_ARRAY: one more than it as an unsigned varint, and 0 for null.
pub fn compact_array_count(out: &mut [u8], n: Option<u64>) -> Written
    ensures { replied result out.new ≡ write_alone (count_fault (compact kept) n) (count_bytes (compact kept) n) out.old }
{
    count(out, Form::Compact, n)
}
