//! The text for a scrape.

ghost use Rattle.std.specs.Prelude.{◌≡◌, ◌++◌, IfOk, OnOk, string_bytes};
ghost use Rattle.fp_metrics.specs.Text.{block, counter_lines, counters_text, each, gauge_block, gauge_line, gauges_text, links_text, metrics_text, build_heading, build_line, build_text, label, needs_escapes, reloads_heading, reloads_line, reloads_text, sample};

use crate::gauge::{Gauge, Gauges};
use crate::series::{front, heading};
use crate::times::push_times;
use fp_counters::{Counter, Counters, Histogram};
use std::alloc::{AllocError, Global};

/// The counters of a link, and its current values.
#[derive(Clone, Copy, Debug)]
pub struct LinkNumbers {
    /// The number of the link, 0 to 7.
    pub link: u8,
    /// The current values.
    pub gauges: Gauges,
    /// The numbers of the link's counters.
    pub counters: Counters,
}

/// The numbers of a run.
#[derive(Clone, Copy, Debug)]
pub struct RunNumbers<'a> {
    /// The version of the program. If it has a quotation mark, a backslash or a line feed, the text has an empty label
    /// instead.
    pub version: &'a str,
    /// The SHA-256 digest of the records that calls are answered from, in hexadecimal digits; an empty label as for the
    /// version.
    pub records: &'a str,
    /// How often the records were replaced.
    pub reloads: u64,
    /// The times from reading a message to writing its answer, for a sample of messages.
    pub answer_times: Histogram,
    /// The numbers of the run's links, each link once: Prometheus refuses a text that has two lines of one name and
    /// link.
    pub links: &'a [LinkNumbers],
}

/// The line of a value: its name and labels, the last of them the number of the link.
fn sample(alloc: Global, front: &str, link: u8, value: u64) -> Result<String, AllocError>
    ensures { IfOk result (λ text. string_bytes text ≡ sample front.now link value) }
{
    format!(in alloc; "{front}{link}\"}} {value}\n")
}

/// Adds the line of a value.
fn push_sample(
    alloc: Global,
    out: &mut String,
    front: &str,
    link: u8,
    value: u64,
) -> Result<(), AllocError>
    ensures { OnOk result (string_bytes out.new ≡ string_bytes out.old ++ sample front.now link value) }
{
    let line = sample(alloc, front, link, value)?;
    out.push_str(line.as_str())?;
    Ok(())
}

/// Adds the line of a counter for each of these links.
fn push_counter(
    alloc: Global,
    out: &mut String,
    counter: Counter,
    links: &[LinkNumbers],
) -> Result<(), AllocError>
    ensures { OnOk result (string_bytes out.new ≡ string_bytes out.old ++ counter_lines counter links.now) }
{
    for link in links {
        let number = link.counters.number(counter);
        push_sample(alloc, out, front(counter), link.link, number)?;
    }
    Ok(())
}

/// Adds the lines of a counter, after the comments of its family if it is the first of it.
fn push_block(
    alloc: Global,
    out: &mut String,
    counter: Counter,
    links: &[LinkNumbers],
) -> Result<(), AllocError>
    ensures { OnOk result (string_bytes out.new ≡ string_bytes out.old ++ block links.now counter) }
{
    out.push_str(heading(counter))?;
    push_counter(alloc, out, counter, links)
}

/// Adds the counters of these links.
fn push_counters(alloc: Global, out: &mut String, links: &[LinkNumbers]) -> Result<(), AllocError>
    ensures { OnOk result (string_bytes out.new ≡ string_bytes out.old ++ counters_text links.now) }
{
    let counters = Counter::all();
    for counter in &counters {
        push_block(alloc, out, *counter, links)?;
    }
    Ok(())
}

/// Adds the line of a current value for each of these links.
fn push_gauge(
    alloc: Global,
    out: &mut String,
    gauge: Gauge,
    links: &[LinkNumbers],
) -> Result<(), AllocError>
    ensures { OnOk result (string_bytes out.new ≡ string_bytes out.old ++ each (gauge_line gauge) links.now) }
{
    for link in links {
        let value = link.gauges.value(gauge);
        push_sample(alloc, out, gauge.front(), link.link, value)?;
    }
    Ok(())
}

/// Adds the lines of a current value, after their comments.
fn push_gauge_block(
    alloc: Global,
    out: &mut String,
    gauge: Gauge,
    links: &[LinkNumbers],
) -> Result<(), AllocError>
    ensures { OnOk result (string_bytes out.new ≡ string_bytes out.old ++ gauge_block links.now gauge) }
{
    out.push_str(gauge.heading())?;
    push_gauge(alloc, out, gauge, links)
}

/// Adds the current values of these links.
fn push_gauges(alloc: Global, out: &mut String, links: &[LinkNumbers]) -> Result<(), AllocError>
    ensures { OnOk result (string_bytes out.new ≡ string_bytes out.old ++ gauges_text links.now) }
{
    let gauges = Gauge::all();
    for gauge in &gauges {
        push_gauge_block(alloc, out, *gauge, links)?;
    }
    Ok(())
}

/// Adds the numbers of these links.
fn push_links(alloc: Global, out: &mut String, links: &[LinkNumbers]) -> Result<(), AllocError>
    ensures { OnOk result (string_bytes out.new ≡ string_bytes out.old ++ links_text links.now) }
{
    push_counters(alloc, out, links)?;
    push_gauges(alloc, out, links)
}

/// Whether a text can't be the value of a label as it is, since it has a quotation mark, a backslash or a line feed.
fn needs_escapes(text: &str) -> bool
    ensures { result ≡ needs_escapes text.now }
{
    let octets = text.as_bytes();
    octets.contains(&b'"') || octets.contains(&b'\\') || octets.contains(&b'\n')
}

/// A text as the value of a label: an empty one if it needs escapes.
fn label(text: &str) -> &str
    ensures { result.now ≡ label text.now }
{
    if needs_escapes(text) { "" } else { text }
}

/// The line of the version.
fn build_line(alloc: Global, version: &str, records: &str) -> Result<String, AllocError>
    ensures { IfOk result (λ text. string_bytes text ≡ build_line version.now records.now) }
{
    format!(in alloc; "freephone_scp_build_info{{version=\"{version}\",records=\"{records}\"}} 1\n")
}

/// The line of the number of reloads.
fn reloads_line(alloc: Global, reloads: u64) -> Result<String, AllocError>
    ensures { IfOk result (λ text. string_bytes text ≡ reloads_line reloads) }
{
    format!(in alloc; "freephone_scp_reloads_total {reloads}\n")
}

/// Adds the version and the digest of the records, after the comments.
fn push_build(alloc: Global, out: &mut String, run: &RunNumbers<'_>) -> Result<(), AllocError>
    ensures { OnOk result (string_bytes out.new ≡ string_bytes out.old ++ build_text run.now) }
{
    let line = build_line(alloc, label(run.version), label(run.records))?;
    out.push_str(build_heading())?;
    out.push_str(line.as_str())?;
    Ok(())
}

/// Adds the number of reloads, after the comments.
fn push_reloads(alloc: Global, out: &mut String, reloads: u64) -> Result<(), AllocError>
    ensures { OnOk result (string_bytes out.new ≡ string_bytes out.old ++ reloads_text reloads) }
{
    let line = reloads_line(alloc, reloads)?;
    out.push_str(reloads_heading())?;
    out.push_str(line.as_str())?;
    Ok(())
}

/// The comments before the version.
fn build_heading() -> &'static str
    ensures { result.now ≡ build_heading }
{
    "# HELP freephone_scp_build_info The version, and the digest of the records from which calls are answered.\n# TYPE freephone_scp_build_info gauge\n"
}

/// The comments before the number of reloads.
fn reloads_heading() -> &'static str
    ensures { result.now ≡ reloads_heading }
{
    "# HELP freephone_scp_reloads_total How often the records were replaced.\n# TYPE freephone_scp_reloads_total counter\n"
}

/// The numbers of a run in the text format of Prometheus (version 0.0.4), all of one name together, after its comments.
/// `Err`: memory ran out.
pub fn metrics_text(alloc: Global, run: &RunNumbers<'_>) -> Result<String, AllocError>
    ensures { IfOk result (λ text. string_bytes text ≡ metrics_text run.now) }
{
    let mut out = String::new(alloc);
    push_build(alloc, &mut out, run)?;
    push_reloads(alloc, &mut out, run.reloads)?;
    push_times(alloc, &mut out, &run.answer_times)?;
    push_links(alloc, &mut out, run.links)?;
    Ok(out)
}
