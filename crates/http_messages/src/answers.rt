//! Answers, and the parts of their bytes. Nothing here takes an allocator.
ghost use Rattle.std.specs.Prelude.{◌≡◌, ◌≤◌, length};
ghost use Rattle.http_messages.specs.Answers.{body_text, error, status_code, phrase_of, error_text};
ghost use Rattle.http_messages.specs.Answers.{type_name, allow_field, close_field};
ghost use Rattle.http_messages.specs.Replies.{answer_in, answer_of_view};

use crate::status::Status;
use http::StatusCode;
use isad_core::List;

/// The answer to a request.
#[derive(Debug, Drop)]
pub enum Answered {
    /// A text of the office.
    Text(List<u8>),
    /// A JSON text of the office.
    Json(List<u8>),
    /// A refusal of the office, as a JSON text.
    Refused(List<u8>),
    /// Another method is allowed: POST if true, and otherwise GET.
    NotAllowed(bool),
    /// A fixed answer.
    Error(Status),
}

impl Answered {
    /// The answer as it is written.
    pub fn view(&self) -> AnswerView<'_>
        ensures { answer_of_view result ≡ answer_in self.now }
    {
        match self {
            Answered::Text(body) => AnswerView {
                status: Status::Fine,
                is_text: true,
                allow: None,
                body: body.as_slice(),
            },
            Answered::Json(body) => AnswerView {
                status: Status::Fine,
                is_text: false,
                allow: None,
                body: body.as_slice(),
            },
            Answered::Refused(body) => AnswerView {
                status: Status::Conflict,
                is_text: false,
                allow: None,
                body: body.as_slice(),
            },
            Answered::NotAllowed(post) => AnswerView {
                status: Status::MethodNotAllowed,
                is_text: false,
                allow: Some(*post),
                body: error_body(Status::MethodNotAllowed),
            },
            Answered::Error(status) => AnswerView::fixed_answer(*status),
        }
    }
}

/// An answer as it is written. It borrows its body, and owns no memory.
#[derive(Clone, Copy, Debug)]
pub struct AnswerView<'a> {
    status: Status,
    /// A text, or else JSON.
    is_text: bool,
    /// The method that is allowed, where another was used: POST if true, and otherwise GET.
    allow: Option<bool>,
    body: &'a [u8],
}

impl<'a> AnswerView<'a> {
    /// The answer with the fixed JSON body of this status, which is empty for `Fine` and `Conflict`.
    pub fn fixed_answer(status: Status) -> AnswerView<'a>
        ensures { answer_of_view result ≡ error status }
    {
        AnswerView {
            status,
            is_text: false,
            allow: None,
            body: error_body(status),
        }
    }

    /// Its status.
    pub fn status(self) -> Status
        ensures { result ≡ (answer_of_view self.entry).status }
    {
        self.status
    }

    /// Whether its body is a text, and not JSON.
    pub fn is_text(self) -> bool
        ensures { result ≡ (answer_of_view self.entry).is_text }
    {
        self.is_text
    }

    /// The line of the field that names the allowed method; empty if the answer has none.
    pub fn allow_line(self) -> &'static [u8]
        ensures line { result.now ≡ allow_field (answer_of_view self.entry).allow }
        ensures short { length result.now ≤ 40 }
    {
        match self.allow {
            None => b"",
            Some(true) => b"Allow: POST\r\n",
            Some(false) => b"Allow: GET\r\n",
        }
    }

    /// Its body, also where it is not written, as for HEAD.
    pub fn body(self) -> &'a [u8]
        ensures { result.now ≡ (answer_of_view self.entry).body }
    {
        self.body
    }

    /// The body that is written; empty if `bare` is true, as for HEAD.
    pub fn written_body(self, bare: bool) -> &'a [u8]
        ensures { result.now ≡ body_text bare (answer_of_view self.entry) }
    {
        if bare { b"" } else { self.body }
    }
}

/// The body of a fixed answer.
fn error_body(status: Status) -> &'static [u8]
    ensures { result.now ≡ error_text status }
{
    match status {
        Status::Fine => b"",
        Status::BadRequest => b"{\"error\":\"bad request\"}",
        Status::NotFound => b"{\"error\":\"not found\"}",
        Status::MethodNotAllowed => b"{\"error\":\"method not allowed\"}",
        Status::Conflict => b"",
        Status::LengthRequired => b"{\"error\":\"length required\"}",
        Status::TooLarge => b"{\"error\":\"too large\"}",
        Status::NotImplemented => b"{\"error\":\"not implemented\"}",
        Status::Busy => b"{\"error\":\"busy\"}",
    }
}

/// The status code that HTTP gives to a status.
pub fn code_of(status: Status) -> StatusCode
    ensures { result ≡ status_code status }
{
    match status {
        Status::Fine => StatusCode::OK,
        Status::BadRequest => StatusCode::BAD_REQUEST,
        Status::NotFound => StatusCode::NOT_FOUND,
        Status::MethodNotAllowed => StatusCode::METHOD_NOT_ALLOWED,
        Status::Conflict => StatusCode::CONFLICT,
        Status::LengthRequired => StatusCode::LENGTH_REQUIRED,
        Status::TooLarge => StatusCode::PAYLOAD_TOO_LARGE,
        Status::NotImplemented => StatusCode::NOT_IMPLEMENTED,
        Status::Busy => StatusCode::SERVICE_UNAVAILABLE,
    }
}

/// The reason phrase behind the status code in the first line of an answer, at most 40 bytes.
pub fn phrase(status: Status) -> &'static [u8]
    ensures phrase { result.now ≡ phrase_of status }
    ensures short { length result.now ≤ 40 }
{
    match status {
        Status::Fine => b"OK",
        Status::BadRequest => b"Bad Request",
        Status::NotFound => b"Not Found",
        Status::MethodNotAllowed => b"Method Not Allowed",
        Status::Conflict => b"Conflict",
        Status::LengthRequired => b"Length Required",
        Status::TooLarge => b"Content Too Large",
        Status::NotImplemented => b"Not Implemented",
        Status::Busy => b"Service Unavailable",
    }
}

/// The value of `Content-Type`: that of plain text in UTF-8 if `is_text` is true, and otherwise that of JSON.
pub fn type_of(is_text: bool) -> &'static [u8]
    ensures name { result.now ≡ type_name is_text }
    ensures short { length result.now ≤ 40 }
{
    if is_text {
        b"text/plain; charset=utf-8"
    } else {
        b"application/json"
    }
}

/// If `closing` is true, the line of the field that announces that the connection is closed; otherwise empty.
pub fn close_line(closing: bool) -> &'static [u8]
    ensures line { result.now ≡ close_field closing }
    ensures short { length result.now ≤ 40 }
{
    if closing {
        b"Connection: close\r\n"
    } else {
        b""
    }
}
