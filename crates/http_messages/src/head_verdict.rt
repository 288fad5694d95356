//! Judges a request's head.
ghost use Rattle.std.specs.Prelude.{◌≡◌, ◌+◌, ◌<◌, ◌≤◌, ◌^◌, length, map, take, count_by, All, true, false, Option};
ghost use Rattle.std.specs.Prelude.{Some, None};
ghost use Rattle.std.specs.Prelude.{IfSome, IfNone, drop, ◌∷◌, [], option_map, unwrap_or, min, nat_lt, ◌==◌, ◌&&◌};
ghost use Rattle.std.specs.Prelude.{◌||◌, not, codes};
ghost use Rattle.std.specs.List.{list_all, list_any, find};
ghost use Rattle.std.specs.Str.{str_eq_ignore_ascii_case};
ghost use Rattle.std.specs.Char.{is_ascii_digit};
ghost use Rattle.std.specs.Str.Parse.{digits_value};
ghost use Rattle.httparse.specs.Grammar.{skip_ows, is_ows};
ghost use Rattle.httparse.specs.Spans.{IsHeaderWithin, IsWithin, header_bytes, span_bytes};
ghost use Rattle.http_messages.specs.Heads.{is_named, is_digits, strip_zeros, same_number, agrees};
ghost use Rattle.http_messages.specs.Heads.{is_continue_expectation, asks_close, is_close, list_items, accept};
ghost use Rattle.http_messages.specs.Heads.{hosts, is_head, weigh_size, weigh_length, JudgesHead, weigh, longest_body};
ghost use Rattle.http_messages.specs.Heads.{is_body, Refused};
ghost use Rattle.http_messages.specs.HeadVerdict.{verdict_in, IsFit};

use crate::digits::all_digits;
use crate::status::Status;
use http::Method;
use httparse::Status as Progress;
use httparse::spans::{EMPTY_HEADER_SPAN, HeaderSpan, Span, parse_request};

/// How many fields a head may have.
pub const FIELDS: usize = 64;

/// How many bytes a body may have.
pub const LONGEST: u64 = 8_388_608;

/// What a session needs of a head.
#[derive(Clone, Copy, Debug, PartialEq, Eq)]
pub struct Head {
    pub method: Span,
    pub target: Span,
    /// The length of its body, if one is given.
    pub length: Option<u64>,
    /// Whether the body comes after 100 Continue.
    pub waits: bool,
    /// Whether the connection is closed after its answer.
    pub closes: bool,
}

/// The verdict on a head.
#[derive(Clone, Copy, Debug, PartialEq, Eq)]
pub enum Judged {
    /// It is refused with this status; and whether it is a HEAD.
    Refused(Status, bool),
    Accepted(Head),
}

/// The line that a head begins with. `minor` is the minor number of its version of HTTP/1.
#[derive(Clone, Copy, Debug, PartialEq, Eq)]
pub struct Line {
    pub method: Span,
    pub target: Span,
    pub minor: u8,
}

fn same_name(a: &[u8], b: &[u8]) -> bool
    ensures { result ≡ str_eq_ignore_ascii_case a.now b.now }
{
    a.eq_ignore_ascii_case(b)
}

/// Whether a field has this name, in any ASCII case.
fn is_field_named(block: &[u8], field: &HeaderSpan, name: &[u8]) -> bool
    requires { IsHeaderWithin (length block.now) field.now }
    ensures { result ≡ is_named name.now (header_bytes block.now field.now) }
{
    same_name(field.name.of(block), name)
}

/// How many fields have this name.
fn count_named(block: &[u8], fields: &[HeaderSpan], name: &[u8]) -> usize
    requires { All (IsHeaderWithin (length block.now)) fields.now }
    ensures { result ≡ count_by (λ h. is_named name.now (header_bytes block.now h)) fields.now }
{
    fields
        .iter()
        .filter(|field| is_field_named(block, field, name))
        .count()
}

/// The value of the first field with this name.
fn first_named<'b>(block: &'b [u8], fields: &[HeaderSpan], name: &[u8]) -> Option<&'b [u8]>
    requires { All (IsHeaderWithin (length block.now)) fields.now }
    ensures { option_map (λ v. v.now) result
        ≡ option_map (λ h. span_bytes block.now h.value)
        (find (λ h. is_named name.now (header_bytes block.now h)) fields.now) }
{
    for field in fields {
        if is_field_named(block, field, name) {
            return Some(field.value.of(block));
        }
    }
    None
}

/// Whether the bytes are one or more digits, and nothing else.
fn is_digits_alone(bytes: &[u8]) -> bool
    ensures { result ≡ is_digits bytes.now }
{
    if bytes.is_empty() {
        false
    } else {
        all_digits(bytes)
    }
}

/// The digits from the first that is not 0.
fn without_zeros(bytes: &[u8]) -> &[u8]
    ensures { result.now ≡ strip_zeros bytes.now }
{
    let mut rest = bytes;
    while let [b'0', others @ ..] = rest {
        rest = others;
    }
    rest
}

/// Whether two numerals stand for the same number.
fn is_same_number(a: &[u8], b: &[u8]) -> bool
    ensures { result ≡ same_number a.now b.now }
{
    without_zeros(a) == without_zeros(b)
}

/// Whether a field gives the same length as `said`, or gives none.
fn is_agreed(block: &[u8], field: &HeaderSpan, said: &[u8]) -> bool
    requires { IsHeaderWithin (length block.now) field.now }
    ensures { result ≡ agrees said.now (header_bytes block.now field.now) }
{
    if is_field_named(block, field, b"content-length") {
        let value = field.value.of(block);
        is_digits_alone(value) && is_same_number(value, said)
    } else {
        true
    }
}

/// Whether no field gives another length than `said`.
fn are_agreed(block: &[u8], fields: &[HeaderSpan], said: &[u8]) -> bool
    requires { All (IsHeaderWithin (length block.now)) fields.now }
    ensures { result ≡ list_all (λ h. agrees said.now (header_bytes block.now h)) fields.now }
{
    fields.iter().all(|field| is_agreed(block, field, said))
}

/// The number that the digits stand for, but at most one more than the longest body.
fn capped_number(digits: &[u8]) -> u64
    requires { list_all is_ascii_digit digits.now ≡ true }
    ensures { result ≡ min (digits_value 10 digits.now) (longest_body + 1) }
{
    let mut value: u64 = 0;
    for digit in digits {
        value = (value * 10 + (*digit - b'0') as u64).min(LONGEST + 1);
    }
    value
}

/// Whether a field waits for 100 Continue.
fn is_expecting_continue(block: &[u8], field: &HeaderSpan) -> bool
    requires { IsHeaderWithin (length block.now) field.now }
    ensures { result ≡ is_continue_expectation (header_bytes block.now field.now) }
{
    if is_field_named(block, field, b"expect") {
        same_name(field.value.of(block), b"100-continue")
    } else {
        false
    }
}

/// Whether a field asks to close the connection.
fn is_asking_close(block: &[u8], field: &HeaderSpan) -> bool
    requires { IsHeaderWithin (length block.now) field.now }
    ensures { result ≡ asks_close (header_bytes block.now field.now) }
{
    if is_field_named(block, field, b"connection") {
        has_close(field.value.of(block))
    } else {
        false
    }
}

/// The bytes from the first that is not white space.
fn after_space(bytes: &[u8]) -> &[u8]
    ensures { result.now ≡ skip_ows bytes.now }
{
    let mut rest = bytes;
    while let [b' ' | b'\t', others @ ..] = rest {
        rest = others;
    }
    rest
}

fn all_space(bytes: &[u8]) -> bool
    ensures { result ≡ list_all is_ows bytes.now }
{
    bytes.iter().all(|b| *b == b' ' || *b == b'\t')
}

/// Whether an option is `close`.
fn is_close_option(item: &[u8]) -> bool
    ensures { result ≡ is_close item.now }
{
    let rest = after_space(item);
    let end = rest.len().min(5);
    same_name(&rest[..end], b"close") && all_space(&rest[end..])
}

fn first_comma(bytes: &[u8]) -> Option<usize>
    ensures at { IfSome result (λ i. (list_items bytes.now ≡ take i bytes.now ∷ list_items (drop (i + 1) bytes.now))
        × (i < length bytes.now)) }
    ensures room { IfSome result (λ i. i + 1 < 2 ^ 64) }
    ensures none { IfNone result (list_items bytes.now ≡ bytes.now ∷ []) }
{
    for (i, byte) in bytes.iter().enumerate() {
        if *byte == b',' {
            return Some(i);
        }
    }
    None
}

/// Whether one of the options is `close`.
fn has_close(value: &[u8]) -> bool
    ensures { result ≡ list_any is_close (list_items value.now) }
{
    let mut rest = value;
    while let Some(i) = first_comma(rest) {
        if is_close_option(&rest[..i]) {
            return true;
        }
        rest = &rest[i + 1..];
    }
    is_close_option(rest)
}

/// Whether some field waits for 100 Continue.
fn expects_continue(block: &[u8], fields: &[HeaderSpan]) -> bool
    requires { All (IsHeaderWithin (length block.now)) fields.now }
    ensures { result ≡ list_any (λ h. is_continue_expectation (header_bytes block.now h)) fields.now }
{
    fields
        .iter()
        .any(|field| is_expecting_continue(block, field))
}

/// Whether some field asks to close the connection.
fn asks_to_close(block: &[u8], fields: &[HeaderSpan]) -> bool
    requires { All (IsHeaderWithin (length block.now)) fields.now }
    ensures { result ≡ list_any (λ h. asks_close (header_bytes block.now h)) fields.now }
{
    fields.iter().any(|field| is_asking_close(block, field))
}

/// Whether some field has this name.
fn has_named(block: &[u8], fields: &[HeaderSpan], name: &[u8]) -> bool
    requires { All (IsHeaderWithin (length block.now)) fields.now }
    ensures { result ≡ list_any (λ h. is_named name.now (header_bytes block.now h)) fields.now }
{
    fields
        .iter()
        .any(|field| is_field_named(block, field, name))
}

fn is_some_body(size: Option<u64>) -> bool
    ensures { result ≡ is_body size }
{
    match size {
        None => false,
        Some(n) => n > 0,
    }
}

fn is_waiting(minor: u8, body: bool, leave: bool) -> bool
    ensures { result ≡ (minor == 1 && (body && leave)) }
{
    minor == 1 && (body && leave)
}

fn is_closing(minor: u8, close: bool) -> bool
    ensures { result ≡ (minor == 0 || close) }
{
    minor == 0 || close
}

/// Whether a method is HEAD, whose answers have no body. Case matters.
pub fn is_bare_method(method: &[u8]) -> bool
    ensures { result ≡ is_head method.now }
{
    method == Method::HEAD.as_str().as_bytes()
}

/// Whether the method of a head is HEAD.
fn is_bare(block: &[u8], line: Line) -> bool
    requires { IsWithin (length block.now) line.method }
    ensures { result ≡ is_head (span_bytes block.now line.method) }
{
    is_bare_method(line.method.of(block))
}

/// The verdict that refuses a head with this status.
fn refuse(block: &[u8], line: Line, status: Status) -> Judged
    requires { IsWithin (length block.now) line.method }
    ensures fit { IsFit block.now result }
    ensures is { verdict_in block.now result ≡ Refused status (is_head (span_bytes block.now line.method)) }
{
    Judged::Refused(status, is_bare(block, line))
}

/// The verdict that accepts a head. Its length, if it gives one, must not be too long.
fn accept(block: &[u8], fields: &[HeaderSpan], line: Line, size: Option<u64>) -> Judged
    requires method { IsWithin (length block.now) line.method }
    requires target { IsWithin (length block.now) line.target }
    requires within { All (IsHeaderWithin (length block.now)) fields.now }
    requires short { unwrap_or size 0 ≤ longest_body }
    ensures fit { IsFit block.now result }
    ensures is { verdict_in block.now result
        ≡ accept (span_bytes block.now line.method) (span_bytes block.now line.target) line.minor
        (map (header_bytes block.now) fields.now) size }
{
    let leave = expects_continue(block, fields);
    let close = asks_to_close(block, fields);
    Judged::Accepted(Head {
        method: line.method,
        target: line.target,
        length: size,
        waits: is_waiting(line.minor, is_some_body(size), leave),
        closes: is_closing(line.minor, close),
    })
}

/// The verdict on a head that gives this length.
fn weigh_size(block: &[u8], fields: &[HeaderSpan], line: Line, size: u64) -> Judged
    requires method { IsWithin (length block.now) line.method }
    requires target { IsWithin (length block.now) line.target }
    requires within { All (IsHeaderWithin (length block.now)) fields.now }
    ensures fit { IsFit block.now result }
    ensures is { verdict_in block.now result
        ≡ weigh_size (span_bytes block.now line.method) (span_bytes block.now line.target) line.minor
        (map (header_bytes block.now) fields.now) size }
{
    if size > LONGEST {
        refuse(block, line, Status::TooLarge)
    } else {
        accept(block, fields, line, Some(size))
    }
}

/// Whether there is one Host field, or none if none is needed.
fn has_allowed_hosts(block: &[u8], fields: &[HeaderSpan], minor: u8) -> bool
    requires { All (IsHeaderWithin (length block.now)) fields.now }
    ensures { result ≡ not (nat_lt 1 (hosts (map (header_bytes block.now) fields.now))
        || (minor == 1 && (hosts (map (header_bytes block.now) fields.now) == 0))) }
{
    let count = count_named(block, fields, b"host");
    !(count > 1 || (minor == 1 && count == 0))
}

/// Whether the length `said` has only digits, and all fields agree with it.
fn is_undisputed(block: &[u8], fields: &[HeaderSpan], said: &[u8]) -> bool
    requires { All (IsHeaderWithin (length block.now)) fields.now }
    ensures { result ≡ (list_all is_ascii_digit said.now
        && list_all (agrees said.now) (map (header_bytes block.now) fields.now)) }
{
    all_digits(said) && are_agreed(block, fields, said)
}

/// The verdict on the length that the fields give.
fn weigh_said(block: &[u8], fields: &[HeaderSpan], line: Line) -> Judged
    requires method { IsWithin (length block.now) line.method }
    requires target { IsWithin (length block.now) line.target }
    requires within { All (IsHeaderWithin (length block.now)) fields.now }
    ensures fit { IsFit block.now result }
    ensures is { verdict_in block.now result
        ≡ weigh_length (span_bytes block.now line.method) (span_bytes block.now line.target) line.minor
        (map (header_bytes block.now) fields.now)
        (option_map (λ h. span_bytes block.now h.value)
        (find (λ h. is_named (codes "content-length") (header_bytes block.now h)) fields.now)) }
{
    match first_named(block, fields, b"content-length") {
        None => accept(block, fields, line, None),
        Some(said) => {
            if is_undisputed(block, fields, said) {
                weigh_size(block, fields, line, capped_number(said))
            } else {
                refuse(block, line, Status::BadRequest)
            }
        }
    }
}

/// The verdict on the fields of a request: the first check that holds.
fn weigh_fields(block: &[u8], fields: &[HeaderSpan], line: Line) -> Judged
    requires method { IsWithin (length block.now) line.method }
    requires target { IsWithin (length block.now) line.target }
    requires within { All (IsHeaderWithin (length block.now)) fields.now }
    ensures fit { IsFit block.now result }
    ensures is { verdict_in block.now result
        ≡ weigh (span_bytes block.now line.method) (span_bytes block.now line.target) line.minor
        (map (header_bytes block.now) fields.now) }
{
    if !has_allowed_hosts(block, fields, line.minor) {
        refuse(block, line, Status::BadRequest)
    } else if has_named(block, fields, b"transfer-encoding") {
        refuse(block, line, Status::NotImplemented)
    } else {
        weigh_said(block, fields, line)
    }
}

/// The verdict on the bytes of a head, up to the empty line that ends it. Bytes that are not exactly one head, or one
/// of more than 64 fields, are refused as a bad request, and not as a HEAD. If the head is accepted, its parts lie in
/// `block`, and its body has at most 8388608 bytes.
pub fn judge(block: &[u8]) -> Judged
    ensures judged { JudgesHead block.now (verdict_in block.now result) }
    ensures fit { IsFit block.now result }
{
    let mut headers = [EMPTY_HEADER_SPAN; FIELDS];
    match parse_request(block, &mut headers) {
        Ok(Progress::Complete(head)) => {
            if head.len == block.len() {
                let line = Line {
                    method: head.method,
                    target: head.path,
                    minor: head.version,
                };
                weigh_fields(block, &headers[..head.headers], line)
            } else {
                Judged::Refused(Status::BadRequest, false)
            }
        }
        Ok(Progress::Partial) => Judged::Refused(Status::BadRequest, false),
        Err(_) => Judged::Refused(Status::BadRequest, false),
    }
}
