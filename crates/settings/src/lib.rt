// Settings files: records of a key and its seconds in an old and a new form, and the conversions between them.
#![tactic(auto)]

ghost use Rattle.std.specs.Prelude.{◌≡◌, ◌+◌, ◌<◌, ◌≤◌, ◌^◌};
ghost use Rattle.disk.specs.Refusals.{answer_of};
ghost use Rattle.endian.specs.Bytes.{stored};
ghost use Rattle.rules.specs.Counting.{least};
ghost use Rattle.settings.specs.Files.{old_form, new_form, number_at, number_bytes, record_place, record_count, key_at, seconds_at, wrong_record, not_of_form, settings_from, record_bytes, file_of};
ghost use Rattle.settings.specs.Conversions.{conversion_of, too_long, convert_outcome, widen_outcome, narrow_outcome};

use disk::Refusal;
use endian::{read8, read16, write8};

// How a record is stored: its mark, and how many bytes its seconds have.
#[derive(Clone, Copy)]
pub struct Form {
    pub mark: u16,
    pub width: usize,
}

// A key with its seconds.
#[derive(Clone, Copy)]
pub struct Setting {
    pub key: u16,
    pub seconds: u32,
}

// The mark `S1` and two bytes of seconds.
fn old_form() -> Form
    ensures { result ≡ old_form }
{
    Form {
        mark: 0x5331,
        width: 2,
    }
}

// The mark `S2` and four bytes of seconds.
fn new_form() -> Form
    ensures { result ≡ new_form }
{
    Form {
        mark: 0x5332,
        width: 4,
    }
}

// The number of the `width` bytes at `at`.
fn number_at(bytes: &[u8], at: usize, width: usize) -> u32
    requires { (width ≤ 4) × (at ≤ 8192) }
    ensures { result ≡ number_at width bytes.now at }
{
    let mut v: u32 = 0;
    for i in 0..width {
        v = v * 256 + read8(bytes, at + i) as u32;
    }
    v
}

// Stores a number in the `width` bytes at `at`.
fn put_number(bytes: &mut [u8], at: usize, width: usize, v: u32)
    requires { (width ≤ 4) × (at ≤ 8192) }
    ensures { bytes.new ≡ stored bytes.old at (number_bytes width v) }
{
    let mut rest = v;
    for i in (0..width).rev() {
        write8(bytes, at + i, (rest % 256) as u8);
        rest /= 256;
    }
}

// The least number that `width` bytes cannot hold.
fn past_width(width: usize) -> u64
    requires { width ≤ 4 }
    ensures { result ≡ 256 ^ width }
{
    256u64.pow(width as u32)
}

// Where record `i` begins.
fn record_place(form: Form, i: usize) -> usize
    requires { (form.width ≤ 4) × (i ≤ 512) }
    ensures { (result ≡ record_place form i) × (result ≤ 4096) }
{
    i * (4 + form.width)
}

// How many whole records the file has.
fn record_count(form: Form, file: &[u8]) -> usize
    requires { form.width ≤ 4 }
    ensures { result ≡ record_count form file.now }
{
    file.len() / (4 + form.width)
}

// The key of record `i`.
fn key_at(form: Form, file: &[u8], i: usize) -> u16
    requires { (form.width ≤ 4) × (i ≤ 512) }
    ensures { result ≡ key_at form file.now i }
{
    read16(file, record_place(form, i) + 2)
}

// The seconds of record `i`.
fn seconds_at(form: Form, file: &[u8], i: usize) -> u32
    requires { (form.width ≤ 4) × (i ≤ 512) }
    ensures { result ≡ seconds_at form file.now i }
{
    number_at(file, record_place(form, i) + 4, form.width)
}

// Whether record `i` has the wrong mark, or a key that is not above the one before it.
fn wrong_record(form: Form, file: &[u8], i: usize) -> bool
    requires { (form.width ≤ 4) × (i ≤ 512) }
    ensures { result ≡ wrong_record form file.now i }
{
    if read16(file, record_place(form, i)) != form.mark {
        return true;
    }
    if i == 0 {
        return false;
    }
    key_at(form, file, i) <= key_at(form, file, i - 1)
}

// 50: not a file of the form.
fn not_of_form(form: Form, file: &[u8]) -> bool
    requires { form.width ≤ 4 }
    ensures { result ≡ not_of_form form file.now }
{
    if file.len() % (4 + form.width) != 0 {
        return true;
    }
    let n = record_count(form, file);
    if 512 < n {
        return true;
    }
    for i in 0..n {
        if wrong_record(form, file, i) {
            return true;
        }
    }
    false
}

// The first of `n` records with more seconds than the form `to` can hold, or `n`.
fn first_too_long(from: Form, to: Form, file: &[u8], n: usize) -> usize
    requires { (from.width ≤ 4) × (to.width ≤ 4) × (n ≤ 512) }
    ensures { result ≡ least (too_long from to file.now) n }
{
    let past = past_width(to.width);
    for i in 0..n {
        if past <= seconds_at(from, file, i) as u64 {
            return i;
        }
    }
    n
}

// Stores a record at `at`.
fn put_record(bytes: &mut [u8], at: usize, form: Form, s: Setting)
    requires { (form.width ≤ 4) × (at ≤ 4096) }
    ensures { bytes.new ≡ stored bytes.old at (record_bytes form s) }
{
    put_number(bytes, at, 2, form.mark as u32);
    put_number(bytes, at + 2, 2, s.key as u32);
    put_number(bytes, at + 4, form.width, s.seconds);
}

// Stores the first `n` records of the file in the form `to`.
fn put_records(from: Form, to: Form, file: &[u8], n: usize, out: &mut [u8])
    requires { (from.width ≤ 4) × (to.width ≤ 4) × (n ≤ 512) }
    ensures { out.new ≡ stored out.old 0 (file_of to (settings_from from file.now 0 n)) }
{
    for i in 0..n {
        let s = Setting {
            key: key_at(from, file, i),
            seconds: seconds_at(from, file, i),
        };
        put_record(out, record_place(to, i), to, s);
    }
}

// Converts a file from one form to another; 50, 51, 52.
fn convert(
    from: Form,
    to: Form,
    file: &[u8],
    out: &mut [u8],
    fields: &mut [u32; 2],
) -> Result<(), Refusal>
    requires { (from.width ≤ 4) × (to.width ≤ 4) }
    ensures { conversion_of (answer_of result) out.new fields.new ≡ convert_outcome from to file.now out.old }
{
    *fields = [0u32; 2];
    if not_of_form(from, file) {
        return Err(Refusal::SettingsForm);
    }
    let n = record_count(from, file);
    let long = first_too_long(from, to, file, n);
    if long < n {
        fields[1] = key_at(from, file, long) as u32;
        return Err(Refusal::LongSeconds);
    }
    let len = record_place(to, n);
    if out.len() < len {
        return Err(Refusal::ShortOutput);
    }
    put_records(from, to, file, n, out);
    fields[0] = len as u32;
    Ok(())
}

// Converts a file of old records to new ones; a refused call leaves the output buffer; 50, 52.
pub fn widen(file: &[u8], out: &mut [u8], fields: &mut [u32; 2]) -> Result<(), Refusal>
    ensures { conversion_of (answer_of result) out.new fields.new ≡ widen_outcome file.now out.old }
{
    convert(old_form(), new_form(), file, out, fields)
}

// Converts a file of new records to old ones; a refused call leaves the output buffer; 50, 51, 52.
pub fn narrow(file: &[u8], out: &mut [u8], fields: &mut [u32; 2]) -> Result<(), Refusal>
    ensures { conversion_of (answer_of result) out.new fields.new ≡ narrow_outcome file.now out.old }
{
    convert(new_form(), old_form(), file, out, fields)
}
