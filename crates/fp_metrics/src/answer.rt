//! The answers to requests.

ghost use Rattle.std.specs.Prelude.{◌≡◌};
ghost use Rattle.fp_metrics.specs.Answer.{answer_at, answer_to, content_of, status_of, text_of, well_if};

use http::{HeaderValue, StatusCode};

/// The health of a run.
#[derive(Clone, Copy, Debug, PartialEq, Eq)]
pub struct Health {
    /// Whether the clocks of the run's links and the thread that writes its log move.
    pub is_live: bool,
    /// Whether a link is up, the node is connected (if the run is a node), and the run isn't about to end.
    pub is_ready: bool,
}

/// The answer to a request.
#[derive(Clone, Copy, Debug, PartialEq, Eq)]
pub enum Answer {
    /// The page for a browser.
    Page,
    /// The numbers.
    Metrics,
    /// The run is well.
    Well,
    /// The run isn't well.
    Unwell,
    /// The path has no page.
    NotFound,
    /// The method isn't allowed: a page is only read.
    NotAllowed,
}

/// The answer of the page at this path, for a run of this health.
fn answer_at(path: &str, health: Health) -> Answer
    ensures { result ≡ answer_at path.now health }
{
    match path {
        "/" => Answer::Page,
        "/metrics" => Answer::Metrics,
        "/live" => Answer::well_if(health.is_live),
        "/ready" => Answer::well_if(health.is_ready),
        _ => Answer::NotFound,
    }
}

/// The answer to a request of this method (RFC 9110, 9) and this path, from a run of this health.
/// For example, `GET /ready` of a run that isn't ready gets the status 503.
pub fn answer_to(method: &str, path: &str, health: Health) -> Answer
    ensures { result ≡ answer_to method.now path.now health }
{
    let answer = answer_at(path, health);
    let is_read = match method {
        "GET" | "HEAD" => true,
        _ => false,
    };
    if answer != Answer::NotFound && !is_read {
        return Answer::NotAllowed;
    }
    answer
}

impl Answer {
    /// The answer for a run that is well, or isn't.
    fn well_if(is_well: bool) -> Answer
        ensures { result ≡ well_if is_well }
    {
        if is_well {
            Answer::Well
        } else {
            Answer::Unwell
        }
    }

    /// The status (RFC 9110, 15).
    pub fn status(self) -> StatusCode
        ensures { result ≡ status_of self }
    {
        match self {
            Answer::Page | Answer::Metrics | Answer::Well => StatusCode::OK,
            Answer::Unwell => StatusCode::SERVICE_UNAVAILABLE,
            Answer::NotFound => StatusCode::NOT_FOUND,
            Answer::NotAllowed => StatusCode::METHOD_NOT_ALLOWED,
        }
    }

    /// The type of the body.
    pub(crate) fn content(self) -> HeaderValue
        ensures { result.bytes ≡ content_of self }
    {
        match self {
            Answer::Page => HeaderValue::from_static("text/html; charset=utf-8"),
            _ => HeaderValue::from_static("text/plain; version=0.0.4"),
        }
    }

    /// The body, given the page and the numbers.
    pub fn body<'a>(self, page: &'a str, metrics: &'a str) -> &'a str
        ensures { result.now ≡ text_of self page.now metrics.now }
    {
        match self {
            Answer::Page => page,
            Answer::Metrics => metrics,
            Answer::Well => "ok\n",
            Answer::Unwell => "not ok\n",
            Answer::NotFound => "not found\n",
            Answer::NotAllowed => "not allowed\n",
        }
    }
}
