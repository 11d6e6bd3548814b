//! The answers of a run, as a service.

ghost use Rattle.std.specs.Prelude.{◌≡◌, ◌∷◌, [], codes, OnOk};
ghost use Rattle.http.specs.Request.{head_of};
ghost use Rattle.http_server.specs.Response.{IsBlank, IsResponse};
ghost use Rattle.http_uri.specs.Uri.{uri_path};
ghost use Rattle.fp_metrics.specs.Answer.{answer_to, fields_for, status_of, text_of};

use crate::{Answer, Health, answer_to};
use bytes::{BufMut, Bytes};
use http::{HeaderValue, Request, header};
use http_server::{Response, Service};
use std::alloc::AllocError;

/// The pages of a run: its numbers, and its health.
#[derive(Drop)]
pub struct Pages<'a> {
    /// The page for a browser, as an HTML text.
    pub page: &'a str,
    /// The numbers, as a text.
    pub metrics: &'a str,
    /// The health of the run.
    pub health: Health,
}

/// Fills a response with an answer.
fn fill(
    answer: Answer,
    page: &str,
    metrics: &str,
    response: &mut Response,
) -> Result<(), AllocError>
    requires { IsBlank response.old }
    ensures { OnOk result (IsResponse (status_of answer) (fields_for answer) (text_of answer page.now metrics.now) response.new) }
{
    response.status = answer.status();
    response.add_header(header::CONTENT_TYPE, answer.content())?;
    if answer == Answer::NotAllowed {
        response.add_header(header::ALLOW, HeaderValue::from_static("GET, HEAD"))?;
    }
    response
        .body
        .put_slice(answer.body(page, metrics).as_bytes())?;
    Ok(())
}

impl Service for Pages<'_> {
    ghost use Rattle.std.specs.Prelude.{◌≡◌};
    ghost use Rattle.http.specs.Request.{head_of};
    ghost use Rattle.http_server.specs.Response.{IsResponse};
    ghost use Rattle.http_uri.specs.Uri.{uri_path};
    ghost use Rattle.fp_metrics.specs.Answer.{answer_to, fields_for, status_of, text_of};

    // The answer depends on the method, the path, the health and the numbers, and changes nothing.
    ghost answers = { λ old request response new.
        IsResponse (status_of (answer_to (head_of request).method (uri_path (head_of request).uri) old.health))
        (fields_for (answer_to (head_of request).method (uri_path (head_of request).uri) old.health))
        (text_of (answer_to (head_of request).method (uri_path (head_of request).uri) old.health) old.page.now old.metrics.now)
        response
        × (new ≡ old) };

    fn call(
        &mut self,
        request: &Request<Bytes>,
        response: &mut Response,
    ) -> Result<(), AllocError> {
        let answer = answer_to(request.method().as_str(), request.uri().path(), self.health);
        fill(answer, self.page, self.metrics, response)
    }
}
